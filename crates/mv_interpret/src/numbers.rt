// The numbers that stand for functions in function pointers: one more than the function's index, so that 0 is null.

ghost use Rattle.std.specs.Prelude.{◌≡◌, ◌<◌, ◌^◌, length, slice_index};
ghost use Rattle.mv_ast.specs.Numbering.{own_numbers, function_of_number};

use mv_ast::program::Program;

/// The number of a function, and 0 where there is none.
pub fn number_of(program: &Program, function: u32) -> u32
    requires { length program.now.functions < 2 ^ 32 }
    ensures { result ≡ slice_index (own_numbers program.now) function }
{
    if (function as usize) < program.functions.len() {
        function + 1
    } else {
        0
    }
}

/// The function that has a number, where one has it.
pub fn function_of_number(program: &Program, number: u32) -> Option<u32>
    ensures { result ≡ function_of_number (own_numbers program.now) number }
{
    if number == 0 {
        return None;
    }
    if number as usize <= program.functions.len() {
        Some(number - 1)
    } else {
        None
    }
}
