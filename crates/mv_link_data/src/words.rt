ghost use Rattle.std.specs.Prelude.{◌≡◌, ◌-◌, ◌^◌, ◌≤◌, ◌++◌, length, map, replicate, IfOk, OnOk};
ghost use Rattle.mv_ast.specs.Counts.{words_of_size};
ghost use Rattle.mv_link_data.specs.FirstData.{datum_of, data_words, global_data, first_data};

use mv_ast::program::{CType, Global as Object, Program};
use mv_linker::Datum;
use mv_num::list::List;
use std::alloc::{AllocError, Global};

/// How many words an object of this size has: one where it is no array.
pub fn words_of_size(size: Option<u32>) -> u32
    ensures { result ≡ words_of_size size }
{
    match size {
        None => 1,
        Some(size) => size,
    }
}

/// How many words all globals of a program have: one for a scalar, and one for each element of an array.
pub fn data_words(program: &Program) -> u64
    requires { length program.now.globals ≤ 2 ^ 32 }
    ensures { result ≡ data_words program.now }
{
    let mut count = 0;
    for global in program.globals.as_slice() {
        count += u64::from(words_of_size(global.size));
    }
    count
}

/// What stands in an image's data before a run of a program: the words of its globals in order, one behind the other.
///
/// Of each global these are its given values, and then zeros. Fails only where there is no memory.
pub fn first_data(alloc: Global, program: &Program) -> Result<List<Datum>, AllocError>
    requires { data_words program.now ≤ 262144 }
    ensures { IfOk result (λ words. words ≡ first_data program.now) }
{
    let mut words = List::new(alloc);
    for global in program.globals.as_slice() {
        push_global(&mut words, global)?;
    }
    Ok(words)
}

fn push_global(words: &mut List<Datum>, global: &Object) -> Result<(), AllocError>
    ensures { OnOk result (words.new ≡ words.old ++ global_data global.now) }
{
    let given = global.first.as_slice();
    push_given(words, global.ctype, given)?;
    push_zeros(words, given.len(), words_of_size(global.size) as usize)
}

/// The values that a global is given.
fn push_given(words: &mut List<Datum>, ctype: CType, given: &[u32]) -> Result<(), AllocError>
    ensures { OnOk result (words.new ≡ words.old ++ map (datum_of ctype) given.now) }
{
    for value in given {
        words.push(datum_of(ctype, *value))?;
    }
    Ok(())
}

/// The zeros behind the given values.
fn push_zeros(words: &mut List<Datum>, given: usize, size: usize) -> Result<(), AllocError>
    ensures { OnOk result (words.new ≡ words.old ++ replicate (size - given) (Datum.Number 0)) }
{
    for _ in given..size {
        words.push(Datum::Number(0))?;
    }
    Ok(())
}

/// The word of a first value of a type.
fn datum_of(ctype: CType, value: u32) -> Datum
    ensures { result ≡ datum_of ctype value }
{
    match ctype {
        CType::Pointer(_) if value > 0 => Datum::Function(value - 1),
        _ => Datum::Number(value),
    }
}
