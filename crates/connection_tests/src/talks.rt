//! Connections over a store in memory, by what is asked and answered.
use alto_commands::{init, pipe};
use alto_http::MemLink;
use alto_keeper::MemVault;
use alto_names::Epoch;
use alto_serve::FixedClock;
use std::alloc::{AllocError, Global};

/// A text whose lines each are whole: one that begins with four blanks goes on with the line before it.
pub fn joined(alloc: Global, text: &str) -> Result<String, AllocError> {
    let bars = text.replace(alloc, "\n    |", " |")?;
    bars.as_str().replace(alloc, "\n    ", "")
}

/// What stands before a bar in a line, and what stands behind it.
pub fn parted(line: &str) -> (&str, &str) {
    let (part, rest) = line.split_once('|').unwrap_or((line, ""));
    (part.trim(), rest)
}

/// A request: its method and target, its fields and its body.
pub fn request(alloc: Global, start: &str, fields: &str, body: &str) -> Result<String, AllocError> {
    let fields = fields.replace(alloc, "~", "\r\n")?;
    let body = body.replace(alloc, "~", "\n")?;
    let length = body.len();
    format!(in alloc; "{start} HTTP/1.1\r\n{fields}Content-Length: {length}\r\n\r\n{body}")
}

/// A reply: its status, its media type and perhaps a further field, and its body.
pub fn reply(alloc: Global, status: &str, kind: &str, body: &str) -> Result<String, AllocError> {
    let length = body.len();
    let (media_type, field) = kind.split_once('~').unwrap_or((kind, ""));
    let end = if field.is_empty() { "" } else { "\r\n" };
    format!(in alloc;
        "HTTP/1.1 {status}\r\nContent-Type: application/{media_type}\r\nContent-Length: {length}\r\n\
         {field}{end}\r\n{body}"
    )
}

/// A vault whose store `x` was begun with the epoch `e1` and the window 8.
pub fn begun(alloc: Global) -> Result<MemVault, AllocError> {
    let mut vault = MemVault::new(alloc);
    let mut link = MemLink::new(alloc, &[], 100)?;
    let Ok(epoch) = Epoch::read(alloc, b"e1") else {
        return Err(AllocError);
    };
    init(alloc, &mut vault, &mut link, "x", &epoch, 8);
    Ok(vault)
}

/// The bytes that a connection brings, and those that it is to be answered with.
#[derive(Drop)]
pub struct Talk {
    pub input: String,
    pub output: String,
}

impl Talk {
    pub fn new(alloc: Global) -> Talk {
        Talk {
            input: String::new(alloc),
            output: String::new(alloc),
        }
    }

    /// Adds the request and the reply of a line.
    pub fn add(&mut self, alloc: Global, line: &str) -> Result<(), AllocError> {
        let (start, rest) = parted(line);
        let (fields, rest) = parted(rest);
        let (body, rest) = parted(rest);
        let asked = request(alloc, start, fields, body)?;
        self.input.push_str(asked.as_str())?;
        let (status, rest) = parted(rest);
        let (kind, rest) = parted(rest);
        let told = reply(alloc, status, kind, rest.trim())?;
        self.output.push_str(told.as_str())
    }

    /// Adds the request of a line that ends with it, and a reply of this media type and body.
    pub fn add_reply(
        &mut self,
        alloc: Global,
        line: &str,
        media_type: &str,
        body: &str,
    ) -> Result<(), AllocError> {
        let line = joined(alloc, line)?;
        let (start, rest) = parted(line.as_str());
        let (fields, asked) = parted(rest);
        let asked = request(alloc, start, fields, asked.trim())?;
        self.input.push_str(asked.as_str())?;
        let length = body.len();
        let told = format!(in alloc;
            "HTTP/1.1 200 OK\r\nContent-Type: {media_type}\r\nContent-Length: {length}\r\n\r\n{body}"
        )?;
        self.output.push_str(told.as_str())
    }

    /// Adds the lines of a text.
    pub fn add_lines(&mut self, alloc: Global, text: &str) -> Result<(), AllocError> {
        let text = joined(alloc, text)?;
        for line in text.as_str().lines() {
            self.add(alloc, line)?;
        }
        Ok(())
    }

    /// Whether the console is answered so, read by these sizes and with so many turns, and the status is 0.
    pub fn is_answered(
        &self,
        alloc: Global,
        turns: u32,
        sizes: Vec<usize>,
    ) -> Result<bool, AllocError> {
        let mut vault = begun(alloc)?;
        let mut link = MemLink::new(alloc, self.input.as_bytes(), 60_000)?.with_sizes(sizes);
        let status = pipe(alloc, &mut vault, &mut link, &FixedClock(100), "x", turns);
        Ok(status == 0 && link.output() == self.output.as_bytes())
    }
}
