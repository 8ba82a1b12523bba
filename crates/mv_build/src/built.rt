use mv_ast::program::Program;
use mv_image::Image;
use mv_ir::body::Body;
use mv_num::list::List;
use mv_variants::Variant;

/// A program and its image.
#[derive(Drop)]
pub struct Built {
    /// The checked program of the source.
    pub program: Program,
    /// Its image.
    pub image: Image,
    /// The body from which each function's code was made, in order of the functions.
    pub generics: List<Body>,
    /// The variants of each attributed function, in order of these functions, and so in the order of the image's table.
    pub variants: List<List<Variant>>,
}
