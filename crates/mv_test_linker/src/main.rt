//! Prints what parts are linked to: the entry, the words of text and data, how many bytes the image has, and the sites, or why the
//! parts have no image. The words of text that are expected are those of LLVM's assembler, and for the variant and the stub of
//! commits those of GNU as.
#![tactic(auto)]

ghost use Rattle.std.specs.Prelude.{◌≡◌, IfOk};
ghost use Rattle.mv_num.specs.declared.kind.Kind.{Kind};
ghost use Rattle.mv_linker.specs.Linked.{AreParts};
ghost use Rattle.mv_linker.specs.Tables.{FitTables};

use mv_descriptors::GuardRow;
use mv_image::{Image, write};
use mv_isa::Instr;
use mv_isa::labelled::{Labelled, Line};
use mv_isa::labels::ENTRIES;
use mv_linker::{Datum, PartFunction, PartSwitch, PartVariant, Parts, link};
use mv_num::kind::Kind;
use mv_num::list::List;
use mv_num::text::Text;
use std::alloc::{AllocError, Global};
use std::io;

const RETURN: Line = Line::Word(Instr::Jalr {
    rd: 0,
    rs1: 1,
    imm: 0,
});

/// Returns where a0 isn't 0, and else traps.
const CALLED: [Line; 4] = [
    Line::Branch(1, 10, 0, 0),
    Line::Jump(0, 4_294_967_290),
    Line::Label(0),
    RETURN,
];

/// Calls the other by a slot and by the label of its entry, and goes on for ever.
const CALLER: [Line; 5] = [
    Line::Slot(0),
    Line::Jump(1, ENTRIES),
    Line::Label(0),
    Line::Entry(10, 0),
    Line::Jump(0, 0),
];

/// Calls it too.
const VARIANT: [Line; 3] = [
    Line::Word(Instr::Addi {
        rd: 11,
        rs1: 0,
        imm: 1,
    }),
    Line::Slot(0),
    RETURN,
];

const DATA: [Datum; 3] = [Datum::Number(7), Datum::Function(1), Datum::Function(0)];

const NOP: Line = Line::Word(Instr::Addi {
    rd: 0,
    rs1: 0,
    imm: 0,
});

const SWITCH: [u8; 1] = *b"s";

const FUNCTION: [u8; 1] = *b"f";

const VALUES: [u32; 2] = [0, 1];

/// All values of the switch.
const GUARDS: [GuardRow; 1] = [GuardRow {
    low: [0; 6],
    high: [1, 0, 0, 0, 0, 0],
}];

fn code(alloc: Global, lines: &[Line], labels: u32) -> Result<Labelled, AllocError>
    ensures { IfOk result (λ code. code ≡ record { items = lines.now; labels = labels }) }
{
    Ok(Labelled {
        items: List::from_vec(Vec::from_slice(alloc, lines)?),
        labels,
    })
}

/// The switch of the function that is called, in the first word of data.
fn switch(alloc: Global) -> Result<PartSwitch, AllocError>
    ensures { IfOk result (λ switch. switch ≡ record { name = SWITCH; word = 0; kind = Kind.Int; values = VALUES }) }
{
    Ok(PartSwitch {
        name: Text::new(alloc, &SWITCH)?,
        word: 0,
        kind: Kind::Int,
        values: List::from_vec(Vec::from_slice(alloc, &VALUES)?),
    })
}

/// What the function that is called is bound to.
fn variant(alloc: Global) -> Result<PartVariant, AllocError>
    ensures { IfOk result (λ variant. variant ≡ record { code = record { items = VARIANT; labels = 0 }; inline = None; guards = GUARDS }) }
{
    Ok(PartVariant {
        code: code(alloc, &VARIANT, 0)?,
        inline: None,
        guards: List::from_vec(Vec::from_slice(alloc, &GUARDS)?),
    })
}

/// The function that is called, the one that calls it, at which a run begins, and data with the addresses of both.
fn two_functions(alloc: Global) -> Result<Parts, AllocError>
    ensures parts { IfOk result AreParts }
    ensures tables { IfOk result FitTables }
{
    let mut functions = List::new(alloc);
    functions.push(code(alloc, &CALLED, 1)?)?;
    functions.push(code(alloc, &CALLER, 1)?)?;
    let mut switches = List::new(alloc);
    switches.push(switch(alloc)?)?;
    let mut variants = List::new(alloc);
    variants.push(variant(alloc)?)?;
    let mut attributed = List::new(alloc);
    attributed.push(PartFunction {
        name: Text::new(alloc, &FUNCTION)?,
        function: 0,
        switches: List::from_vec(Vec::from_slice(alloc, &[0])?),
        variants,
    })?;
    Ok(Parts {
        functions,
        main: 1,
        globals: List::from_vec(Vec::from_slice(alloc, &DATA)?),
        switches,
        attributed,
        pointers: List::new(alloc),
        targets: List::new(alloc),
    })
}

/// A function of NOPs, and data of words that are 0.
fn long_parts(alloc: Global, nops: usize, words: usize) -> Result<Parts, AllocError>
    ensures parts { IfOk result AreParts }
    ensures tables { IfOk result FitTables }
{
    let mut functions = List::new(alloc);
    functions.push(Labelled {
        items: List::from_vec(vec![in alloc; NOP; nops]?),
        labels: 0,
    })?;
    Ok(Parts {
        functions,
        main: 0,
        globals: List::from_vec(vec![in alloc; Datum::Number(0); words]?),
        switches: List::new(alloc),
        attributed: List::new(alloc),
        pointers: List::new(alloc),
        targets: List::new(alloc),
    })
}

fn print_words(rt: &HostRuntime, name: &str, words: &[u32]) -> io::Result<()> {
    print!(rt; "{name}")?;
    for word in words {
        print!(rt; " {word:08x}")?;
    }
    println!(rt; "")
}

fn print_image(rt: &HostRuntime, image: &Image) -> io::Result<()> {
    println!(rt; "entry {:x}", image.entry())?;
    print_words(rt, "text", image.text().as_slice())?;
    print_words(rt, "data", image.globals().as_slice())?;
    for site in image.sites().as_slice() {
        println!(rt; "site {:x} of {}", site.address, site.function)?;
    }
    let bytes = write(rt.alloc(), image)?;
    println!(rt; "{} bytes", bytes.len())
}

fn show(rt: &HostRuntime, parts: &Parts) -> io::Result<()>
    requires parts { AreParts parts.now }
    requires tables { FitTables parts.now }
{
    match link(rt.alloc(), parts) {
        Ok(image) => print_image(rt, &image),
        Err(refusal) => println!(rt; "{refusal}"),
    }
}

/// Prints how many words of text the image of long parts has.
fn show_length(rt: &HostRuntime, nops: usize, words: usize) -> io::Result<()> {
    let parts = long_parts(rt.alloc(), nops, words)?;
    match link(rt.alloc(), &parts) {
        Ok(image) => println!(rt; "{} words", image.text().len()),
        Err(refusal) => println!(rt; "{refusal}"),
    }
}

fn main(rt: HostRuntime) -> io::Result<()> {
    let parts = two_functions(rt.alloc())?;
    show(&rt, &parts)?;
    show_length(&rt, 131_039, 0)?;
    show_length(&rt, 131_040, 0)?;
    show_length(&rt, 1, 262_144)?;
    show_length(&rt, 1, 262_145)
}
