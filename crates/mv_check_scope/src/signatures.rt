//! Signatures, each once.

ghost use Rattle.std.specs.Prelude.{◌≡◌, ◌<◌, ◌^◌, [], ◌∷◌, ◌++◌, None, OnOk, IfOk, length};
ghost use Rattle.mv_check_scope.specs.Signatures.{place_of, with_signature, sort_of, number_of, type_words, spelling, place_spelled};

use crate::convert::kind_number;
use mv_ast::program::{CType, Signature};
use mv_num::list::List;
use smallvec::SmallVec;
use std::alloc::{AllocError, Global};
use std::collections::BTreeMap;
use std::marker::Model;

// The words of a signature. Those of a result and 8 parameters, the most that a function has, need no memory of their own.
type Spelling = SmallVec<u32, 18>;

/// Signatures in the order in which they came up, each once. The number of one is its place. It is found by its spelling in an
/// ordered map, with no search through the others.
#[derive(Drop)]
pub struct SignatureList {
    signatures: Vec<Signature>,
    places: BTreeMap<Vec<u32>, u32>,
}

impl Model for SignatureList {
    ghost use Rattle.std.specs.Prelude.{List};
    ghost use Rattle.mv_ast.specs.declared.program.Signature.{Signature};
    ghost use Rattle.mv_check_scope.specs.Signatures.{ArePlaces};

    ghost Value = { List Signature };

    ghost view = { λ l. l.signatures.items };

    ghost invariant = { λ l. ArePlaces l.places.entries l.signatures.items };
}

// Which of the three a type is.
fn sort_of(t: CType) -> u32
    ensures { result ≡ sort_of t }
{
    match t {
        CType::Void => 0,
        CType::Scalar(_) => 1,
        CType::Pointer(_) => 2,
    }
}

// Which type it is among those of its sort.
fn number_of(t: CType) -> u32
    ensures { result ≡ number_of t }
{
    match t {
        CType::Void => 0,
        CType::Scalar(kind) => u32::from(kind_number(kind)),
        CType::Pointer(signature) => signature,
    }
}

// Puts the words that tell a type from all others behind some.
fn push_type(words: &mut Spelling, t: CType) -> Result<(), AllocError>
    ensures { OnOk result (words.new.items ≡ words.old.items ++ type_words t) }
{
    words.push(sort_of(t))?;
    words.push(number_of(t))?;
    Ok(())
}

// The words that tell a signature from all others.
fn spelling(alloc: Global, s: &Signature) -> Result<Spelling, AllocError>
    ensures { IfOk result (λ words. words.items ≡ spelling s.now) }
{
    let mut words = SmallVec::new(alloc);
    push_type(&mut words, s.result)?;
    for t in s.params.as_slice() {
        push_type(&mut words, *t)?;
    }
    Ok(words)
}

impl SignatureList {
    /// No signatures.
    pub fn new(alloc: Global) -> SignatureList
        ensures { result ≡ [] }
    {
        SignatureList {
            signatures: Vec::new(alloc),
            places: BTreeMap::new(alloc),
        }
    }

    /// How many signatures there are.
    pub fn len(&self) -> usize
        ensures { result ≡ length self.now }
    {
        self.signatures.len()
    }

    /// The signatures in order.
    pub fn as_slice(&self) -> &[Signature]
        ensures { result.now ≡ self.now }
    {
        self.signatures.as_slice()
    }

    /// Gives the signatures as a list, without memory.
    pub fn into_list(self) -> List<Signature>
        ensures { result ≡ self }
    {
        let SignatureList {
            signatures,
            places: _,
        } = self;
        List::from_vec(signatures)
    }

    // Adds a signature that the list hasn't yet, by its spelling.
    fn push(&mut self, words: Spelling, s: Signature) -> Result<u32, AllocError>
        requires room { length self.old < 2 ^ 32 }
        requires spelt { words.items ≡ spelling s }
        requires new { place_spelled words.items self.old ≡ None }
        ensures number { IfOk result (λ number. number ≡ length self.old) }
        ensures added { OnOk result (self.new ≡ self.old ++ s ∷ []) }
    {
        let place = self.signatures.len() as u32;
        let key = words.into_vec()?;
        self.signatures.push(s)?;
        if self.places.insert(key, place).is_err() {
            self.signatures.pop();
            return Err(AllocError);
        }
        Ok(place)
    }

    /// The number of a signature, which the list gets if it hasn't it yet.
    pub fn number(&mut self, alloc: Global, s: Signature) -> Result<u32, AllocError>
        requires { length self.old < 2 ^ 32 }
        ensures number { IfOk result (λ number. number ≡ place_of s self.old) }
        ensures added { OnOk result (self.new ≡ with_signature s self.old) }
    {
        let words = spelling(alloc, &s)?;
        match self.places.get(words.as_slice()) {
            Some(place) => Ok(*place),
            None => self.push(words, s),
        }
    }
}
