//! The devices of a run.

/// The most bytes that a read of the shelf gives and a write takes, the room of out, and the call
/// of each device that fails: 0 is none.
#[derive(Clone, Copy, Debug)]
pub(crate) struct Devices {
    pub read: u32,
    pub write: u32,
    pub room: u64,
    pub shelf: u64,
    pub out: u64,
    pub err: u64,
}

impl Devices {
    pub(crate) fn ample() -> Devices {
        Devices {
            read: 65_536,
            write: 65_536,
            room: 4_194_304,
            shelf: 0,
            out: 0,
            err: 0,
        }
    }

    /// These devices with one of their numbers changed, if it has this name.
    pub(crate) fn with(self, name: &str, number: u64) -> Option<Devices> {
        let small = u32::try_from(number).ok();
        match name {
            "read" => Some(Devices {
                read: small?,
                ..self
            }),
            "write" => Some(Devices {
                write: small?,
                ..self
            }),
            "room" => Some(Devices {
                room: number,
                ..self
            }),
            "shelf" => Some(Devices {
                shelf: number,
                ..self
            }),
            "out" => Some(Devices {
                out: number,
                ..self
            }),
            "err" => Some(Devices {
                err: number,
                ..self
            }),
            _ => None,
        }
    }
}
