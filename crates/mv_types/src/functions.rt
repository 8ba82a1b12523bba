// Functions (C11 6.7.6.3, 6.9.1).

ghost use Rattle.std.specs.Prelude.{◌≡◌, [], ◌∷◌, IfOk, OnOk, length, Some, slice_set};
ghost use Rattle.mv_check_scope.specs.Conversions.{int, same_types, same_signature};
ghost use Rattle.mv_check_scope.specs.Spaces.{named};
ghost use Rattle.mv_check_expressions.specs.Judged.{Good};
ghost use Rattle.mv_check_declarations.specs.Declarators.{signature_of};
ghost use Rattle.mv_check_declarations.specs.Parameters.{parameters_judgement};
ghost use Rattle.mv_check_declarations.specs.Turns.{IsBehind, IsLeft};
ghost use Rattle.mv_types.specs.Contents.{IsContinued};
ghost use Rattle.mv_types.specs.Functions as spec;

use crate::contents::{Contents, Foreknown};
use crate::foreknown::{attributed_number, number_among};
use mv_ast::program::{CType, Function, Known, Signature, Stmt};
use mv_bindings::orders;
use mv_check_declarations::initials::check_plain_values;
use mv_check_declarations::parameters::declare_parameters;
use mv_check_expressions::error::RuleError;
use mv_check_expressions::rules;
use mv_check_scope::convert::same_type;
use mv_check_scope::known::known_function;
use mv_check_scope::meaning::{Meaning, Routine};
use mv_check_scope::scope::Scope;
use mv_check_statements::body::check_body;
use mv_num::kind::Kind;
use mv_num::list::List;
use mv_num::text::Text;
use mv_syntax::unit::{Declarator, Line, Shape};
use std::alloc::{AllocError, Global};
use std::mem;

/// What stands for a function's name before a declarator: what it means, the known function of that name, and its number if the unit
/// defines it.
#[derive(Clone, Copy, PartialEq, Eq, Debug)]
pub struct Before {
    pub meaning: Option<Meaning>,
    pub builtin: Option<Known>,
    pub number: Option<u32>,
}

const INT: CType = CType::Scalar(Kind::Int);

#[tactic(auto, using(crate::proofs::Types::not_none))]
fn are_none(types: &[CType]) -> bool
    ensures { result ≡ same_types types.now [] }
{
    match types {
        [] => true,
        [_, ..] => false,
    }
}

fn are_one_int(types: &[CType]) -> bool
    ensures { result ≡ same_types types.now (int ∷ []) }
{
    match types {
        [] => false,
        [first, rest @ ..] => same_type(*first, INT) && are_none(rest),
    }
}

/// Whether a signature is `int` without parameters.
pub fn is_plain_int(signature: &Signature) -> bool
    ensures { result ≡ same_signature signature.now (signature_of int []) }
{
    same_type(signature.result, INT) && are_none(signature.params.as_slice())
}

fn is_int_of_int(signature: &Signature) -> bool
    ensures { result ≡ same_signature signature.now (signature_of int (int ∷ [])) }
{
    same_type(signature.result, INT) && are_one_int(signature.params.as_slice())
}

// Whether a signature is that of a known function.
fn is_prototype(known: Known, signature: &Signature) -> bool
    ensures { result ≡ spec.is_prototype known (Some signature.now) }
{
    match known {
        Known::Getchar | Known::Poll => is_plain_int(signature),
        Known::Putchar => is_int_of_int(signature),
        Known::Plan(code, _) => code < orders::COMMIT_FUNCTION && is_plain_int(signature),
    }
}

fn may_declare(
    signatures: &[Signature],
    signature: u32,
    block: bool,
    before: Option<Meaning>,
    builtin: Option<Known>,
) -> bool
    ensures { result ≡ spec.may_declare signatures.now signature block before builtin }
{
    match before {
        Some(Meaning::Function(routine)) => routine.signature == signature,
        Some(_) => false,
        None => match builtin {
            None => true,
            Some(known) => match signatures.get(signature as usize) {
                None => false,
                Some(signature) => !block && is_prototype(known, signature),
            },
        },
    }
}

fn is_defined_at(functions: &List<Option<Function>>, number: Option<u32>) -> bool
    ensures { result ≡ spec.is_defined_at functions.now number }
{
    match number {
        None => false,
        Some(number) => match functions.get(number as usize) {
            Some(Some(_)) => true,
            _ => false,
        },
    }
}

#[tactic(auto, unfolding(crate::specs::Functions::broken_rule))]
fn broken_rule(allowed: bool, twice: bool, given: bool) -> Option<u8>
    ensures { result ≡ spec.broken_rule allowed twice given }
{
    if !allowed {
        Some(rules::REDECLARATIONS)
    } else if twice {
        Some(rules::DEFINITIONS)
    } else if given {
        Some(rules::DECLARATIONS)
    } else {
        None
    }
}

fn function_meaning(known: &Foreknown, name: &[u8], signature: u32) -> Result<Meaning, AllocError>
    ensures { IfOk result (λ meaning. meaning ≡ spec.function_meaning known.now name.now signature) }
{
    let number = number_among(&known.outline.functions, name)?;
    let attributed = attributed_number(known, name)?;
    Ok(Meaning::Function(Routine {
        number,
        signature,
        attributed,
    }))
}

// Declares the name of a function if it is new; a prototype of a known function declares nothing.
#[tactic(auto, unfolding(crate::specs::Functions::function_scope))]
fn declare_name(
    alloc: Global,
    known: &Foreknown,
    scope: &mut Scope,
    name: &[u8],
    signature: u32,
    before: Option<Meaning>,
    builtin: Option<Known>,
) -> Result<(), AllocError>
    requires { before ≡ named name.now scope.old.names.here }
    ensures { OnOk result (scope.new ≡ spec.function_scope known.now name.now signature before builtin scope.old) }
{
    match before {
        Some(_) => Ok(()),
        None => match builtin {
            Some(_) => Ok(()),
            None => {
                let meaning = function_meaning(known, name, signature)?;
                scope.declare(alloc, name, meaning)
            }
        },
    }
}

fn declare_parameters_of(
    alloc: Global,
    scope: &mut Scope,
    declarator: &Declarator,
) -> Result<(), RuleError>
    ensures { IsLeft (parameters_judgement scope.old (spec.params_of declarator.now)) result scope.new }
{
    match &declarator.shape {
        Shape::Function(params) => declare_parameters(alloc, scope, params),
        _ => Ok(()),
    }
}

// How many parameters a declarator has. There is no memory for 2^32.
fn count_parameters(declarator: &Declarator) -> Result<u32, AllocError>
    ensures { IfOk result (λ count. count ≡ length (spec.params_of declarator.now)) }
{
    match &declarator.shape {
        Shape::Function(params) => {
            if params.len() > 0xFFFF_FFFF {
                Err(AllocError)
            } else {
                Ok(params.len() as u32)
            }
        }
        _ => Ok(0),
    }
}

// Enters the block of a function's parameters and locals.
fn enter_body(alloc: Global, scope: &mut Scope, attributed: bool) -> Result<(), AllocError>
    ensures { OnOk result (scope.new ≡ spec.body_entered attributed scope.old) }
{
    scope.enter()?;
    scope.locals = List::new(alloc);
    scope.attributed = attributed;
    Ok(())
}

// Leaves the block of a function's parameters and locals.
fn leave_block(alloc: Global, scope: &mut Scope)
    ensures { scope.new ≡ spec.body_left scope.old }
{
    scope.locals = List::new(alloc);
    scope.leave();
    scope.attributed = false;
}

/// Judges the parameters of a declarator that a block follows as those of a definition.
pub fn check_parameters(
    alloc: Global,
    scope: &mut Scope,
    declarator: &Declarator,
    body: &Option<Line>,
) -> Result<(), RuleError>
    ensures { IsLeft (spec.definition_parameters declarator.now body.now scope.old) result scope.new }
{
    match body {
        None => Ok(()),
        Some(_) => {
            enter_body(alloc, scope, false)?;
            declare_parameters_of(alloc, scope, declarator)?;
            leave_block(alloc, scope);
            Ok(())
        }
    }
}

// The function with a body, behind which its block is left.
fn leave_body(
    alloc: Global,
    scope: &mut Scope,
    name: &[u8],
    attributed: bool,
    result_type: CType,
    params: u32,
    body: List<Stmt>,
) -> Result<Function, RuleError>
    ensures { IsBehind (Good (spec.left_with name.now attributed result_type params body scope.old)) result scope.new }
{
    let name = Text::new(alloc, name)?;
    let locals = mem::replace(&mut scope.locals, List::new(alloc));
    leave_block(alloc, scope);
    Ok(Function {
        name,
        attributed,
        result: result_type,
        params,
        locals,
        switches: List::new(alloc),
        body,
    })
}

// The function that a definition is.
fn function_of(
    alloc: Global,
    known: &Foreknown,
    scope: &mut Scope,
    declarator: &Declarator,
    name: &[u8],
    result_type: CType,
    body: &Line,
) -> Result<Function, RuleError>
    ensures { IsBehind (spec.function_of known.now name.now result_type (spec.params_of declarator.now) body.now scope.old) result scope.new }
{
    let attributed = known.attributed.has(name);
    let params = count_parameters(declarator)?;
    enter_body(alloc, scope, attributed)?;
    declare_parameters_of(alloc, scope, declarator)?;
    let body = check_body(alloc, scope, result_type, body)?;
    leave_body(alloc, scope, name, attributed, result_type, params, body)
}

// Puts a function at its number.
fn put_function(functions: &mut List<Option<Function>>, number: usize, function: Function)
    ensures { functions.new ≡ slice_set functions.old number (Some function) }
{
    if number < functions.len() {
        drop(functions.set(number, Some(function)));
    } else {
        drop(function);
    }
}

// Defines a function, if a block follows.
fn define(
    alloc: Global,
    known: &Foreknown,
    declarator: &Declarator,
    name: &[u8],
    result_type: CType,
    body: &Option<Line>,
    number: Option<u32>,
    contents: &mut Contents,
) -> Result<(), RuleError>
    ensures { IsContinued (spec.defined known.now name.now result_type (spec.params_of declarator.now) body.now number contents.old) result contents.new }
{
    match body {
        None => Ok(()),
        Some(body) => {
            let function = function_of(
                alloc,
                known,
                &mut contents.scope,
                declarator,
                name,
                result_type,
                body,
            )?;
            let number = number.unwrap_or(0);
            put_function(&mut contents.functions, number as usize, function);
            Ok(())
        }
    }
}

fn before_of(known: &Foreknown, name: &[u8], scope: &Scope) -> Result<Before, AllocError>
    ensures { IfOk result (λ before. before ≡ spec.before_of known.now name.now scope.now) }
{
    let number = number_among(&known.outline.functions, name)?;
    Ok(Before {
        meaning: scope.names.find_here(name),
        builtin: known_function(name),
        number,
    })
}

// The least rule that a declarator of a function breaks.
fn rule_of(
    declarator: &Declarator,
    signature: u32,
    body: &Option<Line>,
    contents: &Contents,
    before: Before,
) -> Option<u8>
    ensures { result ≡ spec.rule_of declarator.now signature body.now contents.now before }
{
    let block = body.is_some();
    let signatures = contents.scope.signatures.as_slice();
    let allowed = may_declare(signatures, signature, block, before.meaning, before.builtin);
    let twice = block && is_defined_at(&contents.functions, before.number);
    broken_rule(allowed, twice, declarator.initial.is_some())
}

// Declares a function under a name, which stands for this before it, behind its initial value, which no function may have.
fn declare_behind(
    alloc: Global,
    known: &Foreknown,
    declarator: &Declarator,
    name: &[u8],
    result_type: CType,
    signature: u32,
    body: &Option<Line>,
    before: Before,
    contents: &mut Contents,
) -> Result<(), RuleError>
    requires { before.meaning ≡ named name.now contents.old.scope.names.here }
    ensures { IsContinued (spec.function_behind known.now declarator.now name.now result_type signature body.now contents.old before) result contents.new }
{
    let broken = rule_of(declarator, signature, body, contents, before);
    let Before {
        meaning,
        builtin,
        number,
    } = before;
    let scope = &mut contents.scope;
    declare_name(alloc, known, scope, name, signature, meaning, builtin)?;
    check_plain_values(alloc, &declarator.initial, scope)?;
    if let Some(rule) = broken {
        return Err(RuleError::Rule(declarator.place, rule));
    }
    define(
        alloc,
        known,
        declarator,
        name,
        result_type,
        body,
        number,
        contents,
    )
}

/// Declares a function under a name, by the number of its signature and its result, and defines it if a block follows.
#[tactic(auto, unfolding(crate::specs::Functions::function_judgement))]
pub fn declare(
    alloc: Global,
    known: &Foreknown,
    declarator: &Declarator,
    name: &[u8],
    result_type: CType,
    signature: u32,
    body: &Option<Line>,
    contents: &mut Contents,
) -> Result<(), RuleError>
    ensures { IsContinued (spec.function_judgement known.now declarator.now name.now result_type signature body.now contents.old) result contents.new }
{
    let before = before_of(known, name, &contents.scope)?;
    declare_behind(
        alloc,
        known,
        declarator,
        name,
        result_type,
        signature,
        body,
        before,
        contents,
    )
}
