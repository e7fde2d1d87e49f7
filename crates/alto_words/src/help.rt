//! What the program says of itself.

use crate::command_name::CommandName;
use crate::task::Topic;

/// What is printed where words are outside the grammar.
pub const WORDS_FAULT: &str =
    "words outside the grammar; commands are init, pipe, serve, import, show, drill, trim\n";

/// What is printed for `--version`.
pub const VERSION: &str = "alto 0.1.0\n";

/// The help text of a topic, of whole lines.
pub fn help_text(topic: Topic) -> &'static str {
    match topic {
        Topic::Program => PROGRAM,
        Topic::Command(CommandName::Init) => INIT,
        Topic::Command(CommandName::Pipe) => PIPE,
        Topic::Command(CommandName::Serve) => SERVE,
        Topic::Command(CommandName::Import) => IMPORT,
        Topic::Command(CommandName::Show) => SHOW,
        Topic::Command(CommandName::Drill) => DRILL,
        Topic::Command(CommandName::Trim) => TRIM,
    }
}

const PROGRAM: &str = "\
alto: an ALTO server (RFC 7285) over a store of network, cost and property maps

  alto init STORE --epoch E --window W    make a new store
  alto pipe STORE [--turns T]             answer the requests of standard input
  alto serve STORE --public ADDRESS --operator ADDRESS --workers N [--turns T]
                                          answer the requests of connections
  alto import STORE --id ID --form FORM   take the edits of standard input
  alto show STORE RESOURCE                print a document
  alto drill --number X [--batches B]     follow every update of a book in memory
  alto trim STORE --keep K                make room for new batches
  alto COMMAND --help                     say more of a command
  alto --help, alto --version             print this text, or the version

Options stand anywhere behind the command, each once at most, as --name value or --name=value.
Behind the word -- all words are positionals. Numbers are 1 to 10 decimal digits.

exit status
   0  done
   1  out of memory
   2  words outside the grammar
   3  the store couldn't be read or written
   4  standard input couldn't be read
   5  standard output couldn't be written
   6  serve: an address couldn't be listened on, or connections couldn't be accepted
   7  import: an edit breaks a rule, which is printed with its row
   8  show: no such resource
   9  the store is damaged, or its book breaks a rule; the row is printed
  10  init: the store has a book already
  11  import: the body isn't of its form; row and column are printed
  12  import: the id has another body; its number is printed
  13  import: the body is over 4,194,304 bytes
  14  pipe: the input ended inside a request
  15  pipe: the input had more requests than one connection may bring, 1,000,000
";

const INIT: &str = "\
alto init STORE --epoch E --window W: make a new store

  STORE       where it is
  --epoch E   with which the tags of its versions begin: 1 to 20 letters and digits
  --window W  how many versions of a resource are kept for updates: 2 to 32

Prints the epoch and the window. Status 10 where the store has a book already.

  alto init metro.db --epoch e1 --window 8
";

const PIPE: &str = "\
alto pipe STORE [--turns T]: answer the requests of standard input

  STORE       where the store is
  --turns T   how often the next update is waited for: 0 to 1,000, 30 unless given

Replies go to standard output, one after another. Ends where the input ends, or behind a request that closes.
Status 14 where the input ends inside a request, 15 behind 1,000,000 requests.

  alto pipe metro.db --turns 0 < requests.http
";

const SERVE: &str = "\
alto serve STORE --public ADDRESS --operator ADDRESS --workers N [--turns T]: answer the requests of connections

  STORE               where the store is
  --public ADDRESS    where clients connect, as 127.0.0.1:8080 or [::1]:8080; port 0 takes one that is free
  --operator ADDRESS  where the operator sends imports; it isn't for strangers
  --workers N         how many connections of each side are served at once: 1 to 64
  --turns T           how often the next update is waited for, a second each: 0 to 1,000, 30 unless given

Tells the two addresses on standard error when it listens. A connection that is silent for ten seconds is closed.
Status 6 where an address can't be listened on, or connections can't be accepted.

  alto serve metro.db --public 127.0.0.1:8080 --operator 127.0.0.1:8081 --workers 4
";

const IMPORT: &str = "\
alto import STORE --id ID --form FORM: take the edits of standard input, all or none

  STORE        where the store is
  --id ID      by which the import is known: 1 to 64 visible characters of US-ASCII
  --form FORM  how the edits are written: csv or json

Prints the number of the accepted batch. An import that comes again with its id and body is told its number again.
Status 7 where an edit breaks a rule, 11 where the body isn't of its form, 12 where the id has another body,
13 where the body is over 4,194,304 bytes.

  alto import metro.db --id monday --form csv < edits.csv
";

const SHOW: &str = "\
alto show STORE RESOURCE: print a document

  STORE     where the store is
  RESOURCE  a network map NET, a cost map NET:cost:METRIC or a property map NET:prop

Status 8 where there is no such resource.

  alto show metro.db metro:cost:routingcost
";

const DRILL: &str = "\
alto drill --number X [--batches B]: follow every update of a book in memory

  --number X   with which the book's edits are drawn: 0 to 4,294,967,295
  --batches B  how many batches the book has: 1 to 1,000, 40 unless given

Makes every update of three maps in both forms, applies it, and compares what comes of it with the document.
Prints how many there were, how many differ, and the digest of all of them. Needs no store.

  alto drill --number 7
";

const TRIM: &str = "\
alto trim STORE --keep K: make room for new batches, by taking older ones into the base

  STORE     where the store is; no server may have it open
  --keep K  how many of the last batches stay: 0 to 4,096

Prints the number of the last batch that the base has. Every import's number stays known, and every document is what
it was; updates from before that number can't be had any more. A store holds 4,096 batches behind its base.

  alto trim metro.db --keep 1000
";
