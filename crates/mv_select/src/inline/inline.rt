//! The two words of an inline body.

ghost use Rattle.std.specs.Prelude.{◌≡◌, ◌≤◌};
ghost use Rattle.mv_select_code.specs.Trees.Rooms.{place_in};
ghost use Rattle.mv_select.specs.Inline.InlineOf.{number_pair, load_pair, store_pair, return_pair, set_pair, statement_pair, inline_of, inline_words};

use mv_ir::body::{Body, Room};
use mv_ir::stm::Stm;
use mv_ir::tree::Tree;
use mv_isa::{Instr, encode};
use mv_select_code::trees::{lower_bits, place_of, upper_bits};

/// The register of a result and of the first parameter, a0.
const FIRST: u8 = 10;
/// That of the address of a store, t0.
const ADDRESS: u8 = 5;
/// The instruction that does nothing.
const NOP: Instr = Instr::Addi {
    rd: 0,
    rs1: 0,
    imm: 0,
};

// A number into a0.
#[tactic(auto, unfolding(crate::specs::Inline::InlineOf::number_pair))]
fn number_pair(n: u32) -> (Instr, Instr)
    ensures { result ≡ number_pair n }
{
    let rd = FIRST;
    let upper = upper_bits(n);
    let imm = lower_bits(n);
    if upper == 0 {
        (Instr::Addi { rd, rs1: 0, imm }, NOP)
    } else {
        (
            Instr::Lui { rd, imm: upper },
            Instr::Addi { rd, rs1: rd, imm },
        )
    }
}

// The word at an address into a0.
fn load_pair(address: u32) -> (Instr, Instr)
    ensures { result ≡ load_pair address }
{
    let rd = FIRST;
    let imm = lower_bits(address);
    (
        Instr::Lui {
            rd,
            imm: upper_bits(address),
        },
        Instr::Lw { rd, rs1: rd, imm },
    )
}

// A parameter to an address.
fn store_pair(address: u32, parameter: u8) -> (Instr, Instr)
    requires { parameter ≤ 8 }
    ensures { result ≡ store_pair address parameter }
{
    let imm = lower_bits(address);
    (
        Instr::Lui {
            rd: ADDRESS,
            imm: upper_bits(address),
        },
        Instr::Sw {
            rs1: ADDRESS,
            rs2: FIRST + parameter,
            imm,
        },
    )
}

// The instructions of a value that is returned.
#[tactic(auto, using(crate::proofs::OfInline::Equations::returned))]
fn return_pair(rooms: &[Room], params: u32, value: &Tree) -> Option<(Instr, Instr)>
    requires { params ≤ 8 }
    ensures { result ≡ return_pair (place_in rooms.now) params value.now }
{
    match value {
        Tree::Number(n) => Some(number_pair(*n)),
        Tree::Temp(t) => {
            if *t < params {
                Some((
                    Instr::Addi {
                        rd: FIRST,
                        rs1: FIRST + *t as u8,
                        imm: 0,
                    },
                    NOP,
                ))
            } else {
                None
            }
        }
        Tree::Global(g) => Some(load_pair(place_of(rooms, *g))),
        Tree::Function(_) => None,
        Tree::Unary(_, _) => None,
        Tree::Binary(_, _, _) => None,
        Tree::Narrow(_, _) => None,
    }
}

// Those of a value that a global scalar gets.
#[tactic(auto, using(crate::proofs::OfInline::Equations::stored))]
fn set_pair(rooms: &[Room], params: u32, global: u32, value: &Tree) -> Option<(Instr, Instr)>
    requires { params ≤ 8 }
    ensures { result ≡ set_pair (place_in rooms.now) params global value.now }
{
    match value {
        Tree::Temp(t) => {
            if *t < params {
                Some(store_pair(place_of(rooms, global), *t as u8))
            } else {
                None
            }
        }
        Tree::Number(_) => None,
        Tree::Global(_) => None,
        Tree::Function(_) => None,
        Tree::Unary(_, _) => None,
        Tree::Binary(_, _, _) => None,
        Tree::Narrow(_, _) => None,
    }
}

// Those of a statement that stands alone.
#[tactic(auto, using(crate::proofs::OfInline::Equations::alone))]
fn statement_pair(rooms: &[Room], params: u32, statement: &Stm) -> Option<(Instr, Instr)>
    requires { params ≤ 8 }
    ensures { result ≡ statement_pair (place_in rooms.now) params statement.now }
{
    match statement {
        Stm::Return(v) => return_pair(rooms, params, v),
        Stm::SetGlobal(g, v) => set_pair(rooms, params, *g, v),
        Stm::Set(_, _) => None,
        Stm::Divide(_, _, _, _) => None,
        Stm::Check(_, _) => None,
        Stm::Read(_, _, _) => None,
        Stm::Write(_, _, _) => None,
        Stm::Zero(_) => None,
        Stm::If(_, _, _) => None,
        Stm::Loop(_) => None,
        Stm::Block(_) => None,
        Stm::Break(_) => None,
        Stm::Back(_) => None,
        Stm::Call(_, _, _) => None,
        Stm::Known(_, _, _) => None,
    }
}

// Those of a body.
fn pair_of(body: &Body) -> Option<(Instr, Instr)>
    requires { body.now.params ≤ 8 }
    ensures { result ≡ inline_of (place_in body.now.rooms) body.now }
{
    let code = body.code.as_slice();
    if code.len() == 0 {
        return Some((NOP, NOP));
    }
    if code.len() == 1 {
        return statement_pair(body.rooms.as_slice(), body.params, &code[0]);
    }
    None
}

/// The two words that stand at a call of a function in place of a jump, for a body of one of five shapes: empty; a return of a
/// constant, of a parameter or of a global scalar; a store of a parameter to a global scalar. Any other body has none. What the
/// words do is said by `inline_law`.
pub fn inline_of(body: &Body) -> Option<[u32; 2]>
    requires { body.now.params ≤ 8 }
    ensures { result ≡ inline_words (place_in body.now.rooms) body.now }
{
    match pair_of(body) {
        Some((one, two)) => Some([encode(one), encode(two)]),
        None => None,
    }
}
