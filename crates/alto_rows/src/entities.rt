ghost use Rattle.std.specs.Prelude.{◌≡◌, ◌≢◌, ◌++◌, ◌↔◌, ℕ, List, drop, codes, IsTrue, IfOk, OnOk, MatchOption};
ghost use Rattle.std.specs.Prelude.{string_bytes};
ghost use Rattle.alto_addr.specs.Bits.{HasBits, width_of};
ghost use Rattle.alto_addr.specs.declared.addr.Addr.{Addr as TheAddr};
ghost use Rattle.alto_addr.specs.declared.prefix.Prefix.{Prefix as ThePrefix};
ghost use Rattle.alto_addr.specs.Text.{prefix_text};
ghost use Rattle.alto_names.specs.Name.{IsNetName};
ghost use Rattle.alto_rows.specs.Entities as spec;
ghost use Rattle.alto_rows.specs.Entities.{typed_addr_text, entity_text, block_text, WritesTypedAddr, WritesBlock};
ghost use Rattle.alto_rows.specs.Entities.{WritesTypedBlock, WritesEntity};
ghost use Rattle.alto_rows.specs.Good.{IsEntity};
ghost use Rattle.alto_rows.specs.declared.entity.Entity.{Entity as TheEntity};
ghost use Rattle.alto_rows.specs.declared.entity.Entity.TheVariants as entity;

use crate::entity::Entity;
use crate::packed::PackedPrefix;
use crate::pieces::{behind, read_name};
use alto_addr::{Addr, Prefix, print_prefix, read_addr, read_prefix, write_addr};
use alto_names::{NetName, PidName};
use json_tree::Name;
use std::alloc::{AllocError, Global};

/// A text writes one entity of a network at most.
pub fn text_writes_one_entity()
    ensures { (net text : List ℕ) (one other : TheEntity) → IsNetName net → WritesEntity net text one
        → WritesEntity net text other → one ≡ other }
{}

/// What is written of an entity reads as that entity.
pub fn entity_reads_as_written()
    ensures { (net : List ℕ) (entity : TheEntity) → IsEntity entity
        → WritesEntity net (entity_text net entity) entity }
{}

/// The length of the longest text that is written of a typed address.
const LONGEST_TYPED: usize = 44;

/// Writes a typed address as [`write_typed_addr`] does. Takes memory once.
pub fn print_typed_addr(alloc: Global, addr: &Addr) -> Result<Name, AllocError>
    ensures { IfOk result (λ text. text ≡ typed_addr_text addr.now) }
{
    let mut text = String::with_capacity(alloc, LONGEST_TYPED)?;
    write_typed_addr(&mut text, addr)?;
    Ok(Name::new(text))
}

/// Puts a typed address (RFC 7285, section 10.4.1) at the end.
pub fn write_typed_addr(text: &mut String, addr: &Addr) -> Result<(), AllocError>
    ensures { OnOk result (string_bytes text.new ≡ string_bytes text.old ++ typed_addr_text addr.now) }
{
    text.push_str(type_tag(addr))?;
    write_addr(text, addr)
}

/// What is written of an address's type.
fn type_tag(addr: &Addr) -> &'static str
    ensures { result.now ≡ spec.type_tag addr.now }
{
    match addr {
        Addr::V4(_) => "ipv4:",
        Addr::V6(_) => "ipv6:",
    }
}

/// Reads a typed address: `None` exactly where the text writes none. It takes no memory.
pub fn read_typed_addr(text: &[u8]) -> Option<Addr>
    ensures { (addr : TheAddr) → WritesTypedAddr text.now addr ↔ (result ≡ Some addr) }
{
    match read_addr(behind_tag(text)) {
        Ok(addr) => {
            if has_tag(text, &addr) {
                Some(addr)
            } else {
                None
            }
        }
        Err(_) => None,
    }
}

/// Writes an entity of a network (RFC 9240, section 5.1.3): a block of full length as an address.
pub fn print_entity(alloc: Global, net: &NetName, entity: &Entity) -> Result<Name, AllocError>
    ensures { IfOk result (λ text. text ≡ entity_text net.now entity.now) }
{
    match entity {
        Entity::Block(block) => print_block(alloc, &block.prefix()),
        Entity::Pid(pid) => Ok(Name::new(format!(in alloc; "{net}.pid:{pid}")?)),
    }
}

fn print_block(alloc: Global, block: &Prefix) -> Result<Name, AllocError>
    ensures { IfOk result (λ text. text ≡ spec.type_tag block.now.addr ++ block_text block.now) }
{
    if block.len == width(&block.addr) {
        print_typed_addr(alloc, &block.addr)
    } else {
        print_typed_prefix(alloc, block)
    }
}

fn print_typed_prefix(alloc: Global, block: &Prefix) -> Result<Name, AllocError>
    ensures { IfOk result (λ text. text ≡ spec.type_tag block.now.addr ++ prefix_text block.now.addr block.now.len) }
{
    let tag = type_tag(&block.addr);
    let text = print_prefix(alloc, block)?;
    Ok(Name::new(format!(in alloc; "{tag}{text}")?))
}

/// Reads an entity of a network: `None` exactly where the text writes none. Only a PID takes memory.
pub fn read_entity(alloc: Global, net: &NetName, text: &[u8]) -> Result<Option<Entity>, AllocError>
    ensures { IfOk result (λ found. (entity : TheEntity)
        → WritesEntity net.now text.now entity ↔ (found ≡ Some entity)) }
{
    let name = net.as_bytes();
    match read_typed_block(text) {
        Some(block) => Ok(Some(Entity::Block(PackedPrefix::new(&block)))),
        None => read_pid(alloc, name, text),
    }
}

/// The PID of a network that the text writes.
fn read_pid(alloc: Global, net: &[u8], text: &[u8]) -> Result<Option<Entity>, AllocError>
    ensures { IfOk result (λ found. MatchOption found
        ((pid : List ℕ) → ¬ (WritesEntity net.now text.now (entity.Pid pid)))
        (λ read. (pid : List ℕ) × (read ≡ entity.Pid pid) × WritesEntity net.now text.now (entity.Pid pid))) }
{
    match pid_part(net, text) {
        Some(part) => match read_name(alloc, part)? {
            Some(pid) => Ok(Some(Entity::Pid(pid))),
            None => Ok(None),
        },
        None => Ok(None),
    }
}

/// What is behind `.pid:` in a text that begins with the network's name.
fn pid_part<'a>(net: &[u8], text: &'a [u8]) -> Option<&'a [u8]>
    ensures { MatchOption result ((pid : List ℕ) → text.now ≢ net.now ++ (codes ".pid:" ++ pid))
        (λ pid. text.now ≡ net.now ++ (codes ".pid:" ++ pid.now)) }
{
    match behind(text, net) {
        Some(rest) => behind(rest, b".pid:"),
        None => None,
    }
}

/// The block that the text writes.
fn read_typed_block(text: &[u8]) -> Option<Prefix>
    ensures { (block : ThePrefix) → WritesTypedBlock text.now block ↔ (result ≡ Some block) }
{
    match read_block(behind_tag(text)) {
        Some(block) => {
            if has_tag(text, &block.addr) {
                Some(block)
            } else {
                None
            }
        }
        None => None,
    }
}

/// The same without the type of its addresses.
fn read_block(text: &[u8]) -> Option<Prefix>
    ensures { (block : ThePrefix) → WritesBlock text.now block ↔ (result ≡ Some block) }
{
    match read_addr(text) {
        Ok(addr) => Some(whole(addr)),
        Err(_) => match read_prefix(text) {
            Ok(block) => Some(block),
            Err(_) => None,
        },
    }
}

/// The block of one address.
fn whole(addr: Addr) -> Prefix
    ensures addr { result.addr ≡ addr }
    ensures len { result.len ≡ width_of addr }
{
    match addr {
        Addr::V4(_) => Prefix { addr, len: 32 },
        Addr::V6(_) => Prefix { addr, len: 128 },
    }
}

fn width(addr: &Addr) -> u8
    ensures { result ≡ width_of addr.now }
{
    match addr {
        Addr::V4(_) => 32,
        Addr::V6(_) => 128,
    }
}

/// The text without its first five bytes, as many as the type of an address has.
fn behind_tag(text: &[u8]) -> &[u8]
    ensures { result.now ≡ drop 5 text.now }
{
    if text.len() < 5 { &[] } else { &text[5..] }
}

/// Whether the text begins with the type of the address.
fn has_tag(text: &[u8], addr: &Addr) -> bool
    ensures { IsTrue result ↔ (text.now ≡ spec.type_tag addr.now ++ drop 5 text.now) }
{
    match addr {
        Addr::V4(_) => text.starts_with(b"ipv4:"),
        Addr::V6(_) => text.starts_with(b"ipv6:"),
    }
}
