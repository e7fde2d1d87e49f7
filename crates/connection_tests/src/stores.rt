use crate::talks::joined;
use alto_commands::{Form, import, init, pipe, show, trim};
use alto_http::MemLink;
use alto_keeper::{Keeper, MemVault, Vault};
use alto_names::{Epoch, ImportId};
use alto_serve::FixedClock;
use std::alloc::{AllocError, Global};
use std::test::Fail;

/// Commands over one vault, each with what the console gives, the status, and what is printed; `~` stands for LF and
/// `^` for CR LF.
const COMMANDS: &str = r#"init x | | 0 | initialised e1 window 8~
init x | | 10 | already initialised~
show x metro | | 8 | unknown resource~
import x i1 csv | net-add,metro,,,,~ | 0 | accepted n 1 moment 100~
import x i1 csv | net-add,metro,,,,~ | 0 | accepted n 1 moment 100~
import x i1 csv | net-add,other,,,,~ | 12 | other body n 1~
import x i2 csv | pid-add,metro,east,,,~pid-add,metro,east,,,~ | 7 | refused row 2 rule G4~
import x i2 csv | | 11 | bad form row 0 column 0~
import x i2 csv | pid-add,metro,ea.st,,,~ | 11 | bad form row 1 column 3~
import x i2 json | {"edits":[["pid-add","metro","east"]]} | 0 | accepted n 2 moment 100~
show x metro | | 0 | {"meta":{"vtag":{"resource-id":"metro","tag":"e1-2"}},"network-map":{"east":{}}}~
pipe x | GET /maps/metro HTTP/1.1^^POST /edits/i3 HTTP/1.1^Content-Type: text/csv^Content-Length: 22^^
    pid-add,metro,west,,,~
    | 0 | HTTP/1.1 200 OK^Content-Type: application/alto-networkmap+json^Content-Length: 80^^
    {"meta":{"vtag":{"resource-id":"metro","tag":"e1-2"}},"network-map":{"east":{}}}
    HTTP/1.1 200 OK^Content-Type: application/json^Content-Length: 20^^{"moment":100,"n":3}
pipe x | GET /maps/metro HTTP/1.1^^
    | 0 | HTTP/1.1 200 OK^Content-Type: application/alto-networkmap+json^Content-Length: 90^^
    {"meta":{"vtag":{"resource-id":"metro","tag":"e1-3"}},"network-map":{"east":{},"west":{}}}
pipe x | GET | 14 |
trim x 2 | | 0 | trimmed to 1~
trim x 5 | | 0 | trimmed to 1~
import x i1 csv | net-add,metro,,,,~ | 0 | accepted n 1 moment 100~
show x metro | | 0 | {"meta":{"vtag":{"resource-id":"metro","tag":"e1-3"}},"network-map":{"east":{},"west":{}}}~
trim x 0 | | 0 | trimmed to 3~
import x i3 csv | pid-add,metro,west,,,~ | 0 | accepted n 3 moment 100~
trim y 0 | | 9 | damaged row 0~
show y metro | | 9 | damaged row 0~
import z i1 csv | net-add,metro,,,,~ | 9 | damaged row 0~"#;

/// What stands before a bar in a line, and what stands behind it.
fn parted(line: &str) -> (&str, &str) {
    let (part, rest) = line.split_once('|').unwrap_or((line, ""));
    (part.trim(), rest)
}

/// The word of a place, from 0.
fn word(words: &str, place: usize) -> &str {
    words.split(' ').nth(place).unwrap_or("")
}

/// A text with its line ends.
fn with_ends(alloc: Global, text: &str) -> Result<String, AllocError> {
    text.replace(alloc, "~", "\n")?
        .as_str()
        .replace(alloc, "^", "\r\n")
}

/// Does what a line of words asks for.
fn does(
    alloc: Global,
    words: &str,
    vault: &mut MemVault,
    console: &mut MemLink,
) -> Result<u8, AllocError> {
    let clock = FixedClock(100);
    let store = word(words, 1);
    Ok(match word(words, 0) {
        "init" => {
            let Ok(epoch) = Epoch::read(alloc, b"e1") else {
                return Err(AllocError);
            };
            init(alloc, vault, console, store, &epoch, 8)
        }
        "import" => {
            let Ok(id) = ImportId::read(alloc, word(words, 2).as_bytes()) else {
                return Err(AllocError);
            };
            let form = if word(words, 3) == "csv" {
                Form::Csv
            } else {
                Form::Json
            };
            import(alloc, vault, console, &clock, store, id, form)
        }
        "show" => show(alloc, vault, console, store, word(words, 2)),
        "trim" => trim(
            alloc,
            vault,
            console,
            store,
            word(words, 2).parse().unwrap_or(0),
        ),
        _ => pipe(alloc, vault, console, &clock, store, 3),
    })
}

/// Whether a line's command ends and prints as the line says.
fn is_so(alloc: Global, vault: &mut MemVault, line: &str) -> Result<bool, AllocError> {
    let (words, rest) = parted(line);
    let (input, rest) = parted(rest);
    let (status, printed) = parted(rest);
    let input = with_ends(alloc, input)?;
    let printed = with_ends(alloc, printed.trim())?;
    let mut console = MemLink::new(alloc, input.as_bytes(), 1_000)?;
    let found = does(alloc, words, vault, &mut console)?;
    Ok(status.parse::<u8>() == Ok(found) && console.output() == printed.as_bytes())
}

/// Holds a row at a store that is none of a book.
fn damage(alloc: Global, vault: &mut MemVault, store: &str) -> Result<(), AllocError> {
    let Ok(mut keeper) = vault.open(alloc, store) else {
        return Err(AllocError);
    };
    let kept = keeper.append(alloc, 0, b"none");
    vault.close(store, keeper);
    match kept {
        Ok(()) => Ok(()),
        Err(_) => Err(AllocError),
    }
}

#[test]
fn commands_share_a_vault(rt: HostRuntime) -> Result<(), Fail> {
    let alloc = rt.alloc();
    let mut vault = MemVault::new(alloc);
    damage(alloc, &mut vault, "y")?;
    let lines = joined(alloc, COMMANDS)?;
    for line in lines.as_str().lines() {
        assert!(rt; is_so(alloc, &mut vault, line)?, "{line}");
    }
    Ok(())
}
