//! What the program was called with.
use std::rt::Env;
use std::{env, io};
use thiserror::Error;

/// What the program was called with.
#[derive(Drop)]
pub struct Arguments {
    /// The path of the device, or nothing.
    pub file: String,
    /// The words after it.
    pub words: Vec<String>,
}

/// Why there are no arguments.
#[derive(Clone, Copy, PartialEq, Eq, Debug, Drop, Error)]
pub enum NoArguments {
    /// A word is no text in UTF-8.
    #[error("a word is no UTF-8")]
    NoText,
    /// No memory was found.
    #[error("no memory")]
    NoMemory,
}

impl Arguments {
    /// The arguments after the program's name. No FILE is no words.
    pub fn read(rt: &(impl Env + AllocGlobal)) -> Result<Arguments, NoArguments> {
        let alloc = rt.alloc();
        let args = match env::args(rt) {
            Ok(args) => args,
            Err(error) if error.kind() == io::ErrorKind::OutOfMemory => {
                return Err(NoArguments::NoMemory);
            }
            Err(_) => return Err(NoArguments::NoText),
        };
        let mut file = String::new(alloc);
        let mut words = Vec::new(alloc);
        for (place, word) in args.enumerate() {
            if place == 1 {
                file = word;
            } else if place > 1 && words.push(word).is_err() {
                return Err(NoArguments::NoMemory);
            }
        }
        Ok(Arguments { file, words })
    }
}
