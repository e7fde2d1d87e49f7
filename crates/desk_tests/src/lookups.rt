//! The range tables of a version beside the scan that says what they give, on prefixes that a generator draws.
use crate::desks::{MemDesk, imported, new_desk};
use crate::draws::Draws;
use alto_addr::{Addr, print_addr};
use alto_names::NetName;
use alto_rows::prefixes_of;
use pid_prefix::find_by_scan;
use std::alloc::{AllocError, Global};
use std::test::Fail;

/// A prefix of up to 32 bits, of either family.
#[derive(Clone, Copy)]
struct Block {
    is_v6: bool,
    bits: u32,
    len: u32,
}

impl Block {
    /// A prefix with few different bits, so that many are nested.
    fn drawn(draws: &mut Draws) -> Block {
        let is_v6 = draws.draw() % 4 == 0;
        let len = draws.draw() % 33;
        let bits = draws.draw().wrapping_mul(2) & 0xF00F_0F3F;
        Block {
            is_v6,
            bits: bits & !behind(len),
            len,
        }
    }

    /// The address of the family that begins with these bits, and goes on with zeros, or with ones.
    fn addr(&self, bits: u32, ones: bool) -> Addr {
        if self.is_v6 {
            let rest = if ones { u128::MAX >> 32 } else { 0 };
            Addr::V6(u128::from(bits) << 96 | rest)
        } else {
            Addr::V4(bits)
        }
    }

    /// The first and the last address that it holds, and those beside them.
    fn ends(&self) -> [Addr; 4] {
        let last = self.bits | behind(self.len);
        [
            self.addr(self.bits.wrapping_sub(1), true),
            self.addr(self.bits, false),
            self.addr(last, true),
            self.addr(last.wrapping_add(1), false),
        ]
    }
}

/// The bits of 32 behind the first so many.
fn behind(len: u32) -> u32 {
    u32::MAX.checked_shr(len).unwrap_or(0)
}

/// An import of prefixes, each in one of eight PIDs.
fn import_of(alloc: Global, blocks: &[Block]) -> Result<String, AllocError> {
    let mut body = String::new(alloc);
    for (number, block) in blocks.iter().enumerate() {
        let pid = number % 8;
        let addr = print_addr(alloc, &block.addr(block.bits, false))?;
        let len = block.len;
        let line = format!(in alloc; "prefix-put,metro,p{pid},{addr}/{len},,\n")?;
        body.push_str(line.as_str())?;
    }
    Ok(body)
}

/// The first end at which the table and the scan differ, of these prefixes.
fn difference(alloc: Global, desk: &MemDesk, blocks: &[Block]) -> Result<Option<Addr>, Fail> {
    let net = NetName::read(alloc, b"metro")?;
    let front = desk.front();
    let prefixes = prefixes_of(alloc, &*front.rows, &net)?;
    let Some(table) = front.table(&net) else {
        return Ok(Some(Addr::V4(0)));
    };
    for block in blocks {
        for addr in block.ends() {
            if table.pid_of(&addr) != find_by_scan(&prefixes, &addr) {
                return Ok(Some(addr));
            }
        }
    }
    Ok(None)
}

#[test]
fn tables_answer_as_the_scan_does(rt: HostRuntime) -> Result<(), Fail> {
    let alloc = rt.alloc();
    for (count, asked) in [
        (1, 1),
        (7, 7),
        (60, 60),
        (500, 500),
        (2000, 2000),
        (8000, 400),
    ] {
        let mut draws = Draws(count);
        let mut blocks = Vec::new(alloc);
        for _block in 0..count {
            blocks.push(Block::drawn(&mut draws))?;
        }
        let mut desk = new_desk(alloc)?;
        let pids =
            "net-add,metro,,,,\npid-add,metro,p0,,,\npid-add,metro,p1,,,\npid-add,metro,p2,,,\n\
            pid-add,metro,p3,,,\npid-add,metro,p4,,,\npid-add,metro,p5,,,\npid-add,metro,p6,,,\npid-add,metro,p7,,,\n";
        assert_eq!(rt; imported(alloc, &mut desk, "i1", pids)?.as_str(), "1");
        let body = import_of(alloc, &blocks)?;
        assert_eq!(rt;
            imported(alloc, &mut desk, "i2", body.as_str())?.as_str(),
            "2"
        );
        let asked = blocks.get(..asked).unwrap_or(&[]);
        let differs = difference(alloc, &desk, asked)?;
        assert!(rt; differs.is_none(), "{count} prefixes");
    }
    Ok(())
}
