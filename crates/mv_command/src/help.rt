//! What the program tells of itself: its commands and its version.

ghost use Rattle.std.specs.Prelude.{◌≡◌, ◌++◌, IfOk, OnOk, map, option_map};
ghost use Rattle.std.specs.Option.{option_copied};
ghost use Rattle.std.specs.String.{string_bytes};
ghost use Rattle.mv_command.specs.Commands.{argument_of, form_of};
ghost use Rattle.mv_command.specs.Help.{arguments_text, details, form_named, help_on, help_text, line, lines_text, summaries_text, summary, version_text, written};

use crate::options::{Argument, COMMANDS, Form, Kind, PROGRAM, VERSION};
use std::alloc::{AllocError, Global};

// How an argument is written: in brackets, where it may be left out.
fn written(alloc: Global, argument: &Argument) -> Result<String, AllocError>
    ensures { IfOk result (λ text. string_bytes text ≡ written (argument_of argument.now)) }
{
    let name = argument.name;
    let value = argument.value;
    match argument.kind {
        Kind::Operand => format!(in alloc; "{value}"),
        Kind::Optional => format!(in alloc; "[{value}]"),
        Kind::Needed => format!(in alloc; "--{name} {value}"),
        Kind::Valued => format!(in alloc; "[--{name} {value}]"),
        Kind::Flag => format!(in alloc; "[--{name}]"),
    }
}

// Adds the arguments, each behind a space.
#[tactic(auto, unfolding(crate::specs::Help::arguments_text))]
fn push_arguments(
    alloc: Global,
    out: &mut Vec<u8>,
    arguments: &[Argument],
) -> Result<(), AllocError>
    ensures { OnOk result (out.new.items ≡ out.old.items ++ arguments_text (map argument_of arguments.now)) }
{
    for argument in arguments {
        let written = written(alloc, argument)?;
        out.push(b' ')?;
        out.extend_from_slice(written.as_str().as_bytes())?;
    }
    Ok(())
}

// Adds a command with what may stand behind its name, and what it does.
fn push_summary(alloc: Global, out: &mut Vec<u8>, form: &Form) -> Result<(), AllocError>
    ensures { OnOk result (out.new.items ≡ out.old.items ++ summary (form_of form.now)) }
{
    out.extend_from_slice(form.name.as_bytes())?;
    push_arguments(alloc, out, form.arguments)?;
    out.extend_from_slice(b"\n    ")?;
    out.extend_from_slice(form.does.as_bytes())?;
    out.push(b'\n')?;
    Ok(())
}

// Adds an argument, and what it is for.
fn push_line(alloc: Global, out: &mut Vec<u8>, argument: &Argument) -> Result<(), AllocError>
    ensures { OnOk result (out.new.items ≡ out.old.items ++ line (argument_of argument.now)) }
{
    let written = written(alloc, argument)?;
    out.extend_from_slice(b"  ")?;
    out.extend_from_slice(written.as_str().as_bytes())?;
    out.extend_from_slice(b": ")?;
    out.extend_from_slice(argument.about.as_bytes())?;
    out.push(b'\n')?;
    Ok(())
}

// Adds a line for each argument.
#[tactic(auto, unfolding(crate::specs::Help::lines_text))]
fn push_lines(alloc: Global, out: &mut Vec<u8>, arguments: &[Argument]) -> Result<(), AllocError>
    ensures { OnOk result (out.new.items ≡ out.old.items ++ lines_text (map argument_of arguments.now)) }
{
    for argument in arguments {
        push_line(alloc, out, argument)?;
    }
    Ok(())
}

// Adds the summaries of some commands.
#[tactic(auto, unfolding(crate::specs::Help::summaries_text))]
fn push_summaries(alloc: Global, out: &mut Vec<u8>, forms: &[Form]) -> Result<(), AllocError>
    ensures { OnOk result (out.new.items ≡ out.old.items ++ summaries_text (map form_of forms.now)) }
{
    for form in forms {
        push_summary(alloc, out, form)?;
    }
    Ok(())
}

// The first of some commands with a name.
fn form_named<'a>(forms: &'a [Form], name: &str) -> Option<&'a Form>
    ensures { option_map (λ form. form_of form.now) result ≡ form_named name.now (map form_of forms.now) }
{
    for form in forms {
        if form.name == name {
            return Some(form);
        }
    }
    None
}

// The command, and a line for each of its arguments.
fn details(alloc: Global, form: &Form) -> Result<Vec<u8>, AllocError>
    ensures { IfOk result (λ text. text.items ≡ details (form_of form.now)) }
{
    let mut text = Vec::new(alloc);
    push_summary(alloc, &mut text, form)?;
    push_lines(alloc, &mut text, form.arguments)?;
    Ok(text)
}

/// The line with the program's name and its version.
pub(crate) fn version_text(alloc: Global) -> Result<Vec<u8>, AllocError>
    ensures { IfOk result (λ text. text.items ≡ version_text) }
{
    let line = format!(in alloc; "{PROGRAM} {VERSION}\n")?;
    let mut text = Vec::new(alloc);
    text.extend_from_slice(line.as_str().as_bytes())?;
    Ok(text)
}

// The summaries of all commands, behind the version.
fn help_text(alloc: Global) -> Result<Vec<u8>, AllocError>
    ensures { IfOk result (λ text. text.items ≡ help_text) }
{
    let mut text = version_text(alloc)?;
    push_summaries(alloc, &mut text, &COMMANDS)?;
    Ok(text)
}

/// What is told of all commands, or of the one with this name; None where none has it. An error is want of memory.
pub(crate) fn help_on(alloc: Global, name: Option<&str>) -> Result<Option<Vec<u8>>, AllocError>
    ensures { IfOk result (λ text. option_map (λ t. t.items) text ≡ help_on (option_copied name.entry)) }
{
    let Some(name) = name else {
        return Ok(Some(help_text(alloc)?));
    };
    match form_named(&COMMANDS, name) {
        Some(form) => Ok(Some(details(alloc, form)?)),
        None => Ok(None),
    }
}
