//! The symbols of an image.
ghost use Rattle.std.specs.Prelude.{◌≡◌, Ok, IfOk, IfErr};
ghost use Rattle.command_line.specs.Line.{request_of};
ghost use Rattle.phases.specs.Failures.{status_for};
ghost use Rattle.phases.specs.Loading.{IsSymbolCause, symbols_by};

use crate::failure::Failure;
use crate::loading::Loaded;
use command_line::Request;
use elf_symbols::{Symbol, symbols};
use std::alloc::Global;

impl Loaded {
    /// Returns the functions and objects of the image, in the order of its symbol table, if the command
    /// reports by them. Returns no symbols for other commands.
    ///
    /// # Errors
    ///
    /// `BadImage` with `BadSections` if the sections of the symbols cannot be read, otherwise with `BadName` if a
    /// name cannot be read; or `NoMemory`.
    pub fn symbols<'a>(
        &'a self,
        alloc: Global,
        request: &Request<'_>,
    ) -> Result<Vec<Symbol<'a>>, Failure>
        ensures ok { IfOk result (λ list. symbols_by (request_of request.now) self.now.bytes.items ≡ Ok list.items) }
        ensures refused { IfErr result (λ why. IsSymbolCause (request_of request.now) self.now.bytes.items (status_for why)) }
    {
        match request {
            Request::Symbols(_) => Ok(symbols(alloc, self.bytes.as_slice())?),
            _ => Ok(Vec::new(alloc)),
        }
    }
}
