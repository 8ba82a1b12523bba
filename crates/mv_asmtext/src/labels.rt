ghost use Rattle.std.specs.Prelude.{◌≡◌, [], ◌∷◌, ◌++◌, None, IfOk};
ghost use Rattle.mv_asmtext.specs.Labels.{with_name, labels_of};
ghost use Rattle.mv_asmtext.specs.Sites.{named};

use crate::source::Line;
use indexmap::IndexMap;
use std::alloc::{AllocError, Global};
use std::collections::BTreeMap;
use std::marker::Model;

/// Where a label stands: the number of its line, and its address.
#[derive(Clone, Copy)]
pub struct Site {
    pub line: u32,
    pub address: u32,
}

/// The labels of a text, each where it stands first.
///
/// A hash of names would be one that a text can be written against. So an ordered map numbers the names, and the hash
/// is of numbers, which no text chooses.
#[derive(Drop)]
pub struct Labels {
    numbers: BTreeMap<Vec<u8>, usize>,
    sites: IndexMap<usize, (Vec<u8>, Site)>,
}

impl Model for Labels {
    ghost use Rattle.mv_asmtext.specs.Sites.{Sites, sites_of, IsFresh, IsBelow, IsFound};

    ghost Value = { Sites };

    ghost view = { λ l. sites_of l.sites.entries };

    ghost invariant = { λ l. IsFresh l.sites.entries × IsBelow l.numbers l.sites.entries × IsFound l.numbers l.sites.entries };
}

impl Labels {
    /// No labels.
    pub fn new(alloc: Global) -> Labels
        ensures { result ≡ [] }
    {
        Labels {
            numbers: BTreeMap::new(alloc),
            sites: IndexMap::new(alloc),
        }
    }

    /// The labels with one more, which is new.
    fn with(self, alloc: Global, name: &[u8], site: Site) -> Result<Labels, AllocError>
        requires { named name.now self ≡ None }
        ensures { IfOk result (λ labels. labels ≡ self ++ (name.now, site) ∷ []) }
    {
        let Labels {
            mut numbers,
            mut sites,
        } = self;
        let number = sites.len();
        let key = Vec::from_slice(alloc, name)?;
        let kept = Vec::from_slice(alloc, name)?;
        numbers.insert(key, number)?;
        sites.insert(number, (kept, site))?;
        Ok(Labels { numbers, sites })
    }

    /// Where a label stands first.
    pub fn find(&self, name: &[u8]) -> Option<Site>
        ensures { result ≡ named name.now self.now }
    {
        match self.numbers.get(name) {
            Some(number) => match self.sites.get(number) {
                Some((_, site)) => Some(*site),
                None => None,
            },
            None => None,
        }
    }
}

/// The labels with that of a line, unless an earlier line has it.
fn with_label(labels: Labels, alloc: Global, line: &Line) -> Result<Labels, AllocError>
    ensures { IfOk result (λ more. more ≡ with_name labels line.now line.now.label) }
{
    let Some(label) = &line.label else {
        return Ok(labels);
    };
    let name = label.bytes();
    if labels.find(name).is_some() {
        return Ok(labels);
    }
    let site = Site {
        line: line.number,
        address: line.address,
    };
    labels.with(alloc, name, site)
}

/// The labels of some lines.
#[tactic(auto, unfolding(crate::specs::Labels::labels_from))]
pub fn labels_of(alloc: Global, lines: &[Line]) -> Result<Labels, AllocError>
    ensures { IfOk result (λ labels. labels ≡ labels_of lines.now) }
{
    let mut labels = Labels::new(alloc);
    for line in lines {
        labels = with_label(labels, alloc, line)?;
    }
    Ok(labels)
}
