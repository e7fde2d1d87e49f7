ghost use Rattle.std.specs.Prelude.{◌≡◌};

use alto_doors::{DoorFault, Doors, Failed, TcpDoor, TcpDoors, TcpLink};
use alto_serve::Side;
use std::alloc::{AllocError, Global};

/// Doors over TCP, which tell on standard error where they listen, once both sides do.
#[derive(Drop)]
pub struct TellingDoors<'a> {
    rt: &'a HostRuntime,
    doors: TcpDoors<'a, HostRuntime>,
    public: Option<String>,
}

impl<'a> TellingDoors<'a> {
    /// Doors of a runtime, none of them opened.
    pub fn new(rt: &'a HostRuntime) -> Self {
        TellingDoors {
            rt,
            doors: TcpDoors::new(rt.alloc(), rt),
            public: None,
        }
    }

    /// Takes note of the first door of the public side, and tells both addresses at the first of the operator's. What
    /// can't be told is left out.
    fn tell(&mut self, alloc: Global, side: Side, address: &str) -> Result<(), AllocError>
        ensures doors { self.new.doors ≡ self.old.doors }
    {
        match side {
            Side::Public if self.public.is_none() => {
                self.public = Some(String::from_str(alloc, address)?);
            }
            Side::Operator => {
                if let Some(public) = self.public.take() {
                    self.tell_one("public", Side::Public, public.as_str());
                    self.tell_one("operator", Side::Operator, address);
                }
            }
            _ => {}
        }
        Ok(())
    }

    /// Tells where a side is listened to.
    fn tell_one(&self, name: &str, side: Side, address: &str) {
        if let Some(bound) = self.doors.local_addr(side, address) {
            let _told = eprintln!(self.rt; "{name} {bound}");
        }
    }
}

impl Doors for TellingDoors<'_> {
    type Link = TcpLink;

    type Door = TcpDoor;

    ghost counts = { λ doors. doors.doors.counts };

    fn open(&mut self, alloc: Global, side: Side, address: &str) -> Result<TcpDoor, DoorFault> {
        let door = self.doors.open(alloc, side, address)?;
        self.tell(alloc, side, address)?;
        Ok(door)
    }

    fn close(&mut self, door: TcpDoor) -> Result<(), Failed> {
        self.doors.close(door)
    }
}
