//! The switches as the operator sees them.

ghost use Rattle.std.specs.Prelude.{◌≡◌, IfOk, slice_get};
ghost use Rattle.mv_actions.specs.Controls.{kind_of_type, control_of_global, controls_of, switch_of, controls_in};

use mv_ast::program::{CType, Program};
use mv_image::Image;
use mv_num::kind::Kind;
use mv_num::text::Text;
use std::alloc::{AllocError, Global};

/// A switch as the operator sees it.
#[derive(Drop)]
pub(crate) struct Control {
    /// The bytes of its name.
    pub(crate) name: Text,
    /// Its type, where that is an integer type.
    pub(crate) kind: Option<Kind>,
}

fn kind_of_type(ctype: &CType) -> Option<Kind>
    ensures { result ≡ kind_of_type ctype.now }
{
    match ctype {
        CType::Scalar(kind) => Some(*kind),
        CType::Void | CType::Pointer(_) => None,
    }
}

// The switch that is the global with this number.
fn control_of_global(alloc: Global, program: &Program, global: u32) -> Result<Control, AllocError>
    ensures { IfOk result (λ c. c ≡ control_of_global (slice_get program.now.globals global)) }
{
    match program.globals.get(global as usize) {
        Some(global) => switch_of(alloc, global.name.bytes(), kind_of_type(&global.ctype)),
        None => switch_of(alloc, b"", None),
    }
}

fn switch_of(alloc: Global, name: &[u8], kind: Option<Kind>) -> Result<Control, AllocError>
    ensures { IfOk result (λ c. c ≡ switch_of name.now kind) }
{
    Ok(Control {
        name: Text::new(alloc, name)?,
        kind,
    })
}

/// The switches of a program, in order of declaration.
pub(crate) fn controls_of(alloc: Global, program: &Program) -> Result<Vec<Control>, AllocError>
    ensures { IfOk result (λ controls. controls.items ≡ controls_of program.now) }
{
    let mut controls = Vec::new(alloc);
    for switch in program.switches.as_slice() {
        controls.push(control_of_global(alloc, program, switch.global)?)?;
    }
    Ok(controls)
}

/// The switches of an image, in the order of its rows.
pub(crate) fn controls_in(alloc: Global, image: &Image) -> Result<Vec<Control>, AllocError>
    ensures { IfOk result (λ controls. controls.items ≡ controls_in image.now) }
{
    let mut controls = Vec::new(alloc);
    let names = image.names().as_slice();
    let rows = image.switches().as_slice();
    for (name, row) in names.iter().zip(rows) {
        controls.push(switch_of(alloc, name.bytes(), Some(row.kind))?)?;
    }
    Ok(controls)
}
