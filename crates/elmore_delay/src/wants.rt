//! Which signal the sinks at a node want.
ghost use Rattle.std.specs.Prelude.{◌≡◌};
ghost use Rattle.elmore_delay.specs.Wishes.{with_sink};

/// What the sinks at a node want: any signal where there is no sink, the plain or the inverted one,
/// or both where there are sinks of both wishes.
#[derive(Clone, Copy, Debug, PartialEq, Eq)]
pub enum Wants {
    Any,
    Plain,
    Inverse,
    Both,
}

impl Wants {
    /// What they want with one more sink.
    pub(crate) fn with(self, flipped: bool) -> Wants
        ensures { result ≡ with_sink self flipped }
    {
        match (self, flipped) {
            (Wants::Any, false) | (Wants::Plain, false) => Wants::Plain,
            (Wants::Any, true) | (Wants::Inverse, true) => Wants::Inverse,
            (Wants::Plain, true) | (Wants::Inverse, false) | (Wants::Both, _) => Wants::Both,
        }
    }
}
