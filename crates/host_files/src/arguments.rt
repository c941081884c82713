//! The words of the command line.
use fs_model::NoMemory;
use std::env;
use std::io::ErrorKind;

/// Returns the words with which the process was started, of which the first is the program's name. If one is not
/// UTF-8, returns no words, which is no valid line of any program.
///
/// # Errors
///
/// `NoMemory` if memory for the words is refused.
pub fn words(rt: &HostRuntime) -> Result<Vec<String>, NoMemory> {
    let words = Vec::new(rt.alloc());
    match env::args(rt) {
        Ok(args) => {
            let mut words = words;
            for word in args {
                if words.push(word).is_err() {
                    return Err(NoMemory);
                }
            }
            Ok(words)
        }
        Err(error) if error.kind() == ErrorKind::OutOfMemory => Err(NoMemory),
        Err(_) => Ok(words),
    }
}

/// Returns the word with this number, or an empty one.
pub fn word_at(words: &[String], number: usize) -> &str {
    match words.get(number) {
        Some(word) => word.as_str(),
        None => "",
    }
}
