// The arms of a `switch` (C11 6.8.4.2).

ghost use Rattle.std.specs.Prelude.{◌≡◌, Some, None, IfOk, if◌then◌else◌};
ghost use Rattle.mv_num.specs.Lists.{is_among};
ghost use Rattle.mv_check_expressions.specs.Judged.{IsJudged};
ghost use Rattle.mv_check_statements.specs.SwitchBodies.{no_arm, no_arms, has_statements, at_label, with_case, with_default, with_statement, arms_of, converts_constant, case_label, default_label};

use mv_ast::operators::converted;
use mv_ast::program::{Arm, CType, Expr, Form, Stmt};
use mv_check_declarations::steps::with_last;
use mv_check_declarations::value_set::ValueSet;
use mv_check_expressions::constant::Constant;
use mv_check_expressions::error::RuleError;
use mv_check_expressions::rules;
use mv_check_scope::constant::converts;
use mv_num::list::List;
use mv_num::results::both;
use mv_syntax::place::Place;
use std::alloc::{AllocError, Global};

/// The arms of a `switch` so far: all labels, whether `default` is one of them, the arms behind which a label stands, and the last one.
#[derive(Drop)]
pub struct Arms {
    pub labels: ValueSet,
    pub other: bool,
    pub done: List<Arm>,
    pub last: Arm,
}

fn no_arm(alloc: Global) -> Arm
    ensures { result ≡ no_arm }
{
    Arm {
        labels: List::new(alloc),
        other: false,
        body: List::new(alloc),
    }
}

fn has_statements(body: &List<Stmt>) -> bool
    ensures { result ≡ has_statements body.now }
{
    match body.as_slice() {
        [] => false,
        [_, ..] => true,
    }
}

fn converts_constant(constant: Constant, to: CType) -> bool
    ensures { result ≡ converts_constant constant to }
{
    let e = Expr {
        ctype: constant.ctype,
        what: Form::Number(constant.value),
    };
    let converts = converts(&e, to);
    drop(e);
    converts
}

impl Arms {
    /// The arms at the start of a block.
    pub fn new(alloc: Global) -> Arms
        ensures { result ≡ no_arms }
    {
        Arms {
            labels: ValueSet::new(alloc),
            other: false,
            done: List::new(alloc),
            last: no_arm(alloc),
        }
    }

    // The arms in whose last one no statement stands yet.
    #[tactic(auto, unfolding(crate::specs::SwitchBodies::at_label))]
    fn at_label(self, alloc: Global) -> Result<Arms, AllocError>
        ensures { IfOk result (λ r. r ≡ at_label self) }
    {
        if !has_statements(&self.last.body) {
            return Ok(self);
        }
        let Arms {
            labels,
            other,
            done,
            last,
        } = self;
        let (labels, done) = both(labels, with_last(done, last))?;
        Ok(Arms {
            labels,
            other,
            done,
            last: no_arm(alloc),
        })
    }

    // The arms with a label, and `None` where it is there already.
    #[tactic(auto, using(crate::proofs::Labels::labels_kept))]
    fn with_new_case(self, alloc: Global, value: u32) -> Result<Option<Arms>, AllocError>
        ensures { IfOk result (λ r. r ≡ (if is_among value self.labels then None else Some (with_case value self))) }
    {
        let mut arms = self.at_label(alloc)?;
        if !arms.labels.add(value)? {
            return Ok(None);
        }
        arms.last.labels.push(value)?;
        Ok(Some(arms))
    }

    fn with_default(self, alloc: Global) -> Result<Arms, AllocError>
        ensures { IfOk result (λ r. r ≡ with_default self) }
    {
        let mut arms = self.at_label(alloc)?;
        arms.other = true;
        arms.last.other = true;
        Ok(arms)
    }

    /// A `case` in a `switch` on a value of a type after promotion.
    #[tactic(auto, unfolding(crate::specs::SwitchBodies::case_label))]
    pub fn case_label(
        self,
        alloc: Global,
        place: Place,
        tested: CType,
        constant: Constant,
    ) -> Result<Arms, RuleError>
        ensures { IsJudged (case_label place tested constant self) result }
    {
        if !converts_constant(constant, tested) {
            return Err(RuleError::Rule(place, rules::CONVERSIONS));
        }
        let value = converted(tested, constant.value);
        match self.with_new_case(alloc, value)? {
            Some(arms) => Ok(arms),
            None => Err(RuleError::Rule(place, rules::LABELS)),
        }
    }

    /// A `default`.
    #[tactic(auto, unfolding(crate::specs::SwitchBodies::default_label))]
    pub fn default_label(self, alloc: Global, place: Place) -> Result<Arms, RuleError>
        ensures { IsJudged (default_label place self) result }
    {
        if self.other {
            drop(self);
            return Err(RuleError::Rule(place, rules::LABELS));
        }
        Ok(self.with_default(alloc)?)
    }

    /// A statement in the last arm.
    pub fn with_statement(self, stmt: Stmt) -> Result<Arms, AllocError>
        ensures { IfOk result (λ r. r ≡ with_statement stmt self) }
    {
        let mut arms = self;
        let pushed = arms.last.body.push(stmt);
        let (arms, ()) = both(arms, pushed)?;
        Ok(arms)
    }

    /// The arms as they stand.
    pub fn into_list(self) -> Result<List<Arm>, AllocError>
        ensures { IfOk result (λ r. r ≡ arms_of self) }
    {
        let Arms {
            labels,
            other: _,
            done,
            last,
        } = self;
        drop(labels);
        with_last(done, last)
    }
}
