//! The routed nets of a design.
use gr_base::{Design, Routes};
use rc_library::Library;

/// A design with the trees of its routed nets, and a library for it.
#[derive(Clone, Copy)]
pub struct RoutedNets<'a> {
    pub design: &'a Design,
    pub library: &'a Library,
    pub routes: &'a Routes,
}
