ghost use Rattle.std.specs.Prelude.{◌≡◌, nat_eq, refl, IfOk, IfSome, Some, option_map};
ghost use Rattle.std.specs.Cmp.{on_equiv, on_per, on_po, on_total, partial_equiv_from_equiv};
ghost use Rattle.std.specs.Cmp.Lexicographic.{pointwise, slice_cmp, nat_list_eq_equiv, nat_list_cmp_total, texts_po};
ghost use Rattle.std.specs.Cmp.Lexicographic.{texts_ties};
ghost use Rattle.std.specs.Ordering.{nat_cmp};
ghost use Rattle.std.specs.List.{AllByRecursion};
ghost use Rattle.alto_rows.specs.Entities.{WritesTypedAddr, typed_addr_text};
ghost use Rattle.endpoint_costs.specs.Costs.{addrs_at, endpoint_of, endpoints_of};
ghost use Rattle.endpoint_costs.specs.Entries.{IsWritten};

use crate::text::{AddrText, AddrWriter};
use alto_addr::Addr;
use cost_tables::PidText;
use pid_prefix::RangeTable;
use std::alloc::{AllocError, Global};
use std::cmp::Ordering;

/// An address in a PID. Endpoints are compared by their texts alone, which tell their PIDs.
#[derive(Drop)]
pub(crate) struct Endpoint<'a> {
    /// What is written of the address behind its type.
    pub(crate) text: AddrText,
    pub(crate) pid: PidText<'a>,
}

impl<'a> PartialEq for Endpoint<'a> {
    ghost eq = { λ one other. pointwise nat_eq one.text other.text };

    ghost laws = { on_per (λ end. end.text) (partial_equiv_from_equiv nat_list_eq_equiv) };

    fn eq(&self, other: &Self) -> bool {
        self.text.as_str() == other.text.as_str()
    }
}

impl<'a> Eq for Endpoint<'a> {
    ghost laws = { on_equiv (λ end. end.text) nat_list_eq_equiv };
}

impl<'a> PartialOrd for Endpoint<'a> {
    ghost partial_cmp = { λ one other. Some (slice_cmp nat_cmp one.text other.text) };

    ghost laws = { on_po (λ end. end.text) texts_po };

    fn partial_cmp(&self, other: &Self) -> Option<Ordering> {
        Some(self.cmp(other))
    }
}

impl<'a> Ord for Endpoint<'a> {
    ghost cmp = { λ one other. slice_cmp nat_cmp one.text other.text };

    ghost total = { on_total (λ end. end.text) nat_list_cmp_total };

    ghost matches_partial_cmp = { λ one other. refl };

    ghost matches_eq = { λ one other. texts_ties one.text other.text };

    fn cmp(&self, other: &Self) -> Ordering {
        self.text.as_str().cmp(other.text.as_str())
    }
}

/// The endpoints at one end: those of the addresses that are given, else that of the client's own, if it is known.
pub(crate) fn endpoints_at<'a>(
    alloc: Global,
    table: &'a RangeTable,
    given: &Option<Vec<Addr>>,
    peer: Option<Addr>,
) -> Result<Vec<Endpoint<'a>>, AllocError>
    ensures are { IfOk result (λ ends. ends.items
        ≡ endpoints_of table.now (addrs_at (option_map (λ addrs. addrs.items) given.now) peer)) }
    ensures written { IfOk result (λ ends. AllByRecursion (IsWritten table.now) ends.items) }
{
    match given {
        Some(addrs) => endpoints_of(alloc, table, addrs),
        None => match peer {
            Some(addr) => endpoints_of(alloc, table, &[addr]),
            None => Ok(Vec::new(alloc)),
        },
    }
}

/// Those of addresses that are in a PID. One look-up for each.
fn endpoints_of<'a>(
    alloc: Global,
    table: &'a RangeTable,
    addrs: &[Addr],
) -> Result<Vec<Endpoint<'a>>, AllocError>
    ensures are { IfOk result (λ ends. ends.items ≡ endpoints_of table.now addrs.now) }
    ensures written { IfOk result (λ ends. AllByRecursion (IsWritten table.now) ends.items) }
{
    let mut writer = AddrWriter::new(alloc)?;
    let mut ends = Vec::with_capacity(alloc, addrs.len())?;
    for addr in addrs {
        if let Some(end) = endpoint_of(alloc, table, *addr, &mut writer)? {
            ends.push(end)?;
        }
    }
    Ok(ends)
}

/// The endpoint of an address that is in a PID.
fn endpoint_of<'a>(
    alloc: Global,
    table: &'a RangeTable,
    addr: Addr,
    writer: &mut AddrWriter,
) -> Result<Option<Endpoint<'a>>, AllocError>
    ensures is { IfOk result (λ end. end ≡ endpoint_of table.now addr) }
    ensures written { IfOk result (λ end. IfSome end (IsWritten table.now)) }
{
    match table.pid_of(&addr) {
        Some(pid) => Ok(Some(Endpoint {
            text: text_of(alloc, addr, writer)?,
            pid: PidText::of(pid),
        })),
        None => Ok(None),
    }
}

/// What is written of an address behind its type, which reads as the address.
fn text_of(alloc: Global, addr: Addr, writer: &mut AddrWriter) -> Result<AddrText, AllocError>
    ensures is { IfOk result (λ text. text ≡ typed_addr_text addr) }
    ensures reads { IfOk result (λ text. WritesTypedAddr text addr) }
{
    writer.text_of(alloc, addr)
}
