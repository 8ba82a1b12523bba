//! The machine runs the code of frames: its runs between two instructions, its text, its memory and its environment calls.
//!
//! - `runs_are_runs`: for every image, input, polls and picks of the fetches, the run of `mv_machine`'s definition is
//!   one on which code runs (`IsRun`), for every frame whose own words lie in the data and the stack, and that loads from
//!   no closed address. Which addresses are closed to what stands at a place is for the caller to say.
//!   `runs_are_runs_alone`: so it is where only a part of text stands, for frames that load from no address that is
//!   closed there. Its text is the image's words but for the entries of functions and the words of sites and pointer
//!   sites; its slots are these sites. `is_calm` tests that the run goes on, that text is the image's under the world's bindings and no fetch
//!   may give an older word, that the stack has its words, and that input, output, bindings and log are the world's
//!   (`calm_is_tested`). `is_sound` is that a fetch has one choice, and that it is no load from a closed address.
//!   `runs_begin_in_calm`.
//! - `bound_steps_are_taken`: the same of the word that stands under the bindings, where text may be patched.
//! - `texts_are_found`: the image's words are found at their addresses. `code_is_placed`: part of assembled code that an
//!   image's text has is `Placed` there, if its slots are sites of their functions and pointer sites of their pointers, no
//!   word of its other lines may be patched, and its labels stand once in the code. `free_lines_stand`: each line of such code, also of a slot or an
//!   entry, stands under bindings where the functions and pointer switches that show there are free. `bindings_are_shown`: under bindings, the
//!   entry of a bound function is a JAL to its variant, and its site is a call of the variant or the variant's inline
//!   body, if neither word of the site is an entry and the second starts no other site.
//! - `environment_calls`: from a calm time, exits and traps (codes 1 to 4) end the run for good, a read gives the next
//!   byte or -1, a write adds the low byte to the output. `known_calls_are_served`: so the machine serves `getchar` and
//!   `putchar` as `mv_select::calls` asks, if its input is bytes.
//! - `packed_is_laid_out`: globals in the data and arrays in a frame that stand one behind the other are laid out in
//!   order.
//! - `runs_are_runs_under`: so is the machine narrowed to worlds with some bindings, over a part of the words that stand
//!   under these.
//! - `functions_show`: while a function is free the lines of the code stand at its entry and sites; while it is bound to
//!   values for which it has a variant, its entry jumps there, and its sites call it or have its inline words; and while
//!   a pointer switch is bound to a target, its pointer sites go to the check stub behind its test for null, and call that.
//! - Not here: the environment calls of orders and polls (`mv_refine_machine::commits`). That a linked image has its code where
//!   `code_is_placed` asks is shown in `mv_link_text`. A crate of laws, without a test.
//!
//! And above this, in modules with their own specifications and headers:
//!
//! - `stubs`: how a run starts, exits and traps, and the test of calls through pointer switches.
//! - `stores`: what memory holds while the pairs of a plan are stored into text one by one.
//! - `commits`: the stub of commits carries out orders and polls, and each place of a run is sound while text changes.
//! - `runs`: a run does what a program means, if it does what a call of `main` does (`images_behave`).
#![tactic(auto)]

pub mod commits;
mod laws;
pub mod runs;
pub mod stores;
pub mod stubs;

pub use laws::{
    bindings_are_shown, bound_steps_are_taken, bound_words_are_instructions, calm_is_tested,
    code_is_placed, environment_calls, free_lines_stand, functions_show, known_calls_are_served,
    packed_is_laid_out, runs_are_runs, runs_are_runs_alone, runs_are_runs_under,
    runs_begin_in_calm, texts_are_found,
};
