//! Lines of a text.
ghost use Rattle.std.specs.Prelude.{◌≡◌, ◌++◌, OnOk};
ghost use Rattle.report_text.specs.Texts.{net_line};

use gr_base::Net;
use gr_text::Text;
use std::alloc::AllocError;

/// Puts the line of a net's name and id at the end of the text. At an error a first part of it may have
/// been added.
pub(crate) fn put_net_line(text: &mut Text, net: &Net) -> Result<(), AllocError>
    ensures { OnOk result (text.new ≡ text.old ++ net_line net.now) }
{
    text.put_number_line(net.name.bytes(), u128::from(net.id))
}
