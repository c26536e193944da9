//! A net's tree with what loads it.
ghost use Rattle.std.specs.Prelude.{◌≡◌};

use elmore_delay::Loading;
use gr_base::RouteTree;
use rc_library::Library;

/// A net's tree, the library whose buffers may stand in it, and the loading by both.
#[derive(Clone, Copy)]
pub struct Loaded<'a> {
    pub tree: &'a RouteTree,
    pub library: &'a Library,
    pub loading: &'a Loading<'a>,
    ghost by_tree: { loading.now.tree ≡ tree.now },
    ghost by_library: { loading.now.library ≡ library.now },
}
