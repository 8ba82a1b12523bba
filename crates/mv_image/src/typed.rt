//! What the types of rows give: each field has as many words as it may have, and each is a word.

ghost use Rattle.std.specs.Prelude.{All};
ghost use Rattle.mv_num.specs.Bytes.{AreWords};
ghost use Rattle.mv_descriptors.specs.Widths.{SwitchWhole, FunctionWhole, VariantWhole, GuardWhole};
ghost use Rattle.mv_descriptors.specs.declared.rows.SwitchRow.{SwitchRow};
ghost use Rattle.mv_descriptors.specs.declared.rows.FunctionRow.{FunctionRow};
ghost use Rattle.mv_descriptors.specs.declared.rows.VariantRow.{VariantRow};
ghost use Rattle.mv_descriptors.specs.declared.rows.GuardRow.{GuardRow};

use mv_descriptors::{FunctionRow, GuardRow, Row, SwitchRow, VariantRow};

/// Each item of a slice of words is below 2 ^ 32.
pub(crate) fn words(words: &[u32])
    ensures { AreWords words.now }
{}

/// Each switch row has room for 16 values, and these are words.
pub(crate) fn switches(rows: &[SwitchRow])
    ensures whole { All SwitchWhole rows.now }
    ensures values { All (λ (row : SwitchRow). AreWords row.values) rows.now }
{
    for row in rows {
        row.has_width();
        words(&row.values);
    }
}

/// Each function row has room for 6 switches.
pub(crate) fn functions(rows: &[FunctionRow])
    ensures { All FunctionWhole rows.now }
{
    for row in rows {
        row.has_width();
    }
}

/// Each variant row has room for an inline body of 2 words, and these are words.
pub(crate) fn variants(rows: &[VariantRow])
    ensures whole { All VariantWhole rows.now }
    ensures words { All (λ (row : VariantRow). AreWords row.words) rows.now }
{
    for row in rows {
        row.has_width();
        words(&row.words);
    }
}

/// Each guard row has room for the ranges of 6 switches, whose ends are words.
pub(crate) fn guards(rows: &[GuardRow])
    ensures whole { All GuardWhole rows.now }
    ensures lowest { All (λ (row : GuardRow). AreWords row.low) rows.now }
    ensures highest { All (λ (row : GuardRow). AreWords row.high) rows.now }
{
    for row in rows {
        row.has_width();
        words(&row.low);
        words(&row.high);
    }
}
