//! Generated programs, to measure and to try the compiler with: a text for each number of 32 bits.
//!
//! - `generate` gives exactly the text of its number, and `functions_of` exactly the number of that text's functions
//!   besides `main`, as `specs/Generated.antt` says.
//! - Only tested: the first lines of the text of 0.
#![tactic(auto)]

ghost use Rattle.std.specs.Prelude.{◌≡◌, ◌++◌, IfOk, OnOk, Some};
ghost use Rattle.std.specs.String.{string_bytes};
ghost use Rattle.mv_gen.specs.Generated.{next, functions, expression_text, definition_line, definition_lines, call_line, call_lines, generated};

#[cfg(test)]
mod tests;

use std::alloc::{AllocError, Global};
use std::fmt;

/// The lines before the functions.
const SWITCH_LINES: &str = "#include <multiverse.h>
__attribute__((multiverse(0, 1, 2, 3))) int s0, s1, s2, s3;
";

/// The lines between the functions and the calls of them.
const LOOP_LINES: &str = "int acc;
int main(void) {
  int i;
  for (i = 0; i < 1000; i++) {
    if (i % 100 == 0) {
      s0 = i / 100 & 3;
      s1 = i / 200 & 3;
      s2 = i / 300 & 3;
      s3 = i / 400 & 3;
      multiverse_commit();
    }
";

/// The lines behind the calls.
const LAST_LINES: &str = "  }
  putchar(65 + (acc & 15));
  putchar(10);
  return 0;
}
";

/// The number of functions of a text, besides `main`: 8 to 36.
pub fn functions_of(number: u32) -> u32
    ensures { result ≡ functions number }
{
    8 + number % 29
}

/// The word that follows a word in what is drawn from a number, which comes first itself.
pub fn next(word: u32) -> u32
    ensures { result ≡ next word }
{
    word.wrapping_mul(1_664_525).wrapping_add(1_013_904_223)
}

/// The expression that a word stands for.
#[derive(Clone, Copy)]
struct Expression {
    word: u32,
}

impl fmt::Display for Expression {
    ghost output = { λ expression. Some (expression_text expression.word) };

    #[tactic(auto, unfolding(crate::specs::Generated::expression_text))]
    fn fmt<W: fmt::Write>(&self, f: &mut fmt::Formatter<W>) -> fmt::Result {
        let switch = self.word / 0x1_0000 % 4;
        let constant = self.word / 0x100 % 256;
        match self.word / 0x100_0000 % 4 {
            0 => write!(f, "a + s{switch} * {constant}"),
            1 => write!(f, "s{switch} ? a ^ {constant} : a"),
            2 => write!(f, "s{switch} == 2 ? a * 3 + {constant} : a - {constant}"),
            _ => write!(f, "a"),
        }
    }
}

/// Adds the line of a function.
#[tactic(auto, unfolding(crate::specs::Generated::definition_line))]
fn push_definition(text: &mut String, index: u32, expression: Expression) -> Result<(), AllocError>
    ensures { OnOk result (string_bytes text.new ≡ string_bytes text.old ++ definition_line index expression.word) }
{
    write!(
        text,
        "__attribute__((multiverse)) int f{index}(int a) {{ return {expression}; }}\n"
    )
}

/// Adds the line of each function.
fn push_definitions(text: &mut String, number: u32) -> Result<(), AllocError>
    ensures { OnOk result (string_bytes text.new ≡ string_bytes text.old ++ definition_lines number 0 (functions number)) }
{
    let mut word = number;
    for index in 0..functions_of(number) {
        word = next(word);
        push_definition(text, index, Expression { word })?;
    }
    Ok(())
}

/// Adds a call of a function.
#[tactic(auto, unfolding(crate::specs::Generated::call_line))]
fn push_call(text: &mut String, index: u32) -> Result<(), AllocError>
    ensures { OnOk result (string_bytes text.new ≡ string_bytes text.old ++ call_line index) }
{
    write!(text, "    acc = f{index}(acc);\n")
}

/// Adds a call of each function.
fn push_calls(text: &mut String, count: u32) -> Result<(), AllocError>
    ensures { OnOk result (string_bytes text.new ≡ string_bytes text.old ++ call_lines 0 count) }
{
    for index in 0..count {
        push_call(text, index)?;
    }
    Ok(())
}

/// The text of a number.
pub fn generate(alloc: Global, number: u32) -> Result<Vec<u8>, AllocError>
    ensures { IfOk result (λ text. text.items ≡ generated number) }
{
    let mut text = String::new(alloc);
    text.push_str(SWITCH_LINES)?;
    push_definitions(&mut text, number)?;
    text.push_str(LOOP_LINES)?;
    push_calls(&mut text, functions_of(number))?;
    text.push_str(LAST_LINES)?;
    Ok(text.into_bytes())
}
