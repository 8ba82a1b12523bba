ghost use Rattle.std.specs.Prelude.{◌≡◌};
ghost use Rattle.mv_check_scope.specs.Known.{known_function};

use mv_ast::program::Known;
use mv_bindings::orders;

/// The function that is known by this name without a declaration.
pub fn known_function(name: &[u8]) -> Option<Known>
    ensures { result ≡ known_function name.now }
{
    if name == b"getchar".as_slice() {
        Some(Known::Getchar)
    } else if name == b"putchar".as_slice() {
        Some(Known::Putchar)
    } else if name == b"multiverse_poll".as_slice() {
        Some(Known::Poll)
    } else if name == b"multiverse_commit".as_slice() {
        Some(Known::Plan(orders::COMMIT, 0))
    } else if name == b"multiverse_revert".as_slice() {
        Some(Known::Plan(orders::REVERT, 0))
    } else if name == b"multiverse_commit_func".as_slice() {
        Some(Known::Plan(orders::COMMIT_FUNCTION, 0))
    } else if name == b"multiverse_revert_func".as_slice() {
        Some(Known::Plan(orders::REVERT_FUNCTION, 0))
    } else if name == b"multiverse_commit_refs".as_slice() {
        Some(Known::Plan(orders::COMMIT_REFERENCES, 0))
    } else if name == b"multiverse_revert_refs".as_slice() {
        Some(Known::Plan(orders::REVERT_REFERENCES, 0))
    } else {
        None
    }
}
