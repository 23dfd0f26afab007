//! The files of a text.

use crate::words::{decoded, word};
use std::alloc::Global;
use std::fs;

/// A file, and what it has to hold, or nothing if it has to be absent.
#[derive(Drop)]
struct File {
    name: String,
    content: Option<Vec<u8>>,
}

impl File {
    fn holds(&self, rt: &HostRuntime) -> bool {
        let Ok(read) = fs::read(rt, self.name.as_str()) else {
            return self.content.is_none();
        };
        match &self.content {
            Some(content) => read.as_slice() == content.as_slice(),
            None => false,
        }
    }
}

/// The files that a text has named, the last one at the end.
#[derive(Drop)]
pub struct Folder {
    alloc: Global,
    files: Vec<File>,
}

/// Writes bytes over those from a place on.
fn put(content: &mut [u8], at: usize, bytes: &[u8]) {
    for (place, byte) in content.iter_mut().skip(at).zip(bytes) {
        *place = *byte;
    }
}

impl Folder {
    /// Of a text that has named none.
    pub fn new(alloc: Global) -> Folder {
        Folder {
            alloc,
            files: Vec::new(alloc),
        }
    }

    /// From now on a file has to hold this.
    fn expect(&mut self, name: &str, content: Option<Vec<u8>>) -> Option<()> {
        self.files.retain(|file| file.name.as_str() != name);
        let name = String::from_str(self.alloc, name).ok()?;
        self.files.push(File { name, content }).ok()
    }

    /// What a file has to hold.
    fn copy(&self, name: &str) -> Option<Vec<u8>> {
        let file = self.files.iter().find(|file| file.name.as_str() == name)?;
        Vec::from_slice(self.alloc, file.content.as_ref()?).ok()
    }

    /// What a file holds after a line that begins with `kind` and its name.
    fn changed(&self, kind: &str, name: &str, rest: &str) -> Option<Vec<u8>> {
        let (first, second) = word(rest);
        match kind {
            "file" => Some(Vec::new(self.alloc)),
            "fill" => {
                let byte = u8::from_str_radix(second, 16).ok()?;
                Vec::from_elem(self.alloc, byte, first.parse().ok()?).ok()
            }
            "put" => {
                let mut content = self.copy(name)?;
                put(
                    &mut content,
                    first.parse().ok()?,
                    &hex::decode(self.alloc, second).ok()?,
                );
                Some(content)
            }
            "size" => {
                let mut content = self.copy(name)?;
                content.resize(first.parse().ok()?, 0).ok()?;
                Some(content)
            }
            "copy" => self.copy(first),
            _ => None,
        }
    }

    /// A line more of the file that was named last.
    pub fn add(&mut self, rt: &HostRuntime, line: &str) -> Option<()> {
        let File { name, content } = self.files.pop()?;
        let mut content = content?;
        let line = decoded(self.alloc, line)?;
        content.extend_from_slice(line.as_bytes()).ok()?;
        content.push(b'\n').ok()?;
        fs::write(rt, name.as_str(), &content).ok()?;
        self.expect(name.as_str(), Some(content))
    }

    /// Plays a line on a file.
    pub fn play(&mut self, rt: &HostRuntime, kind: &str, rest: &str) -> Option<()> {
        let (name, rest) = word(rest);
        match kind {
            "remove" => {
                let _ = fs::remove_file(rt, name);
                self.expect(name, None)
            }
            "becomes" => {
                let content = self.copy(rest)?;
                self.expect(name, Some(content))
            }
            _ => {
                let content = self.changed(kind, name, rest)?;
                fs::write(rt, name, &content).ok()?;
                self.expect(name, Some(content))
            }
        }
    }

    /// The name of a file that doesn't hold what it has to.
    pub fn differing(&self, rt: &HostRuntime) -> Option<&str> {
        let file = self.files.iter().find(|file| !file.holds(rt))?;
        Some(file.name.as_str())
    }
}
