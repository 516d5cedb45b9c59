//! The words after the program's name.
use crate::command_error::CommandError;
use crate::stopped::Stopped;
use command_lines::word_bytes;
use std::alloc::Global;
use std::env::Env;

/// Returns the words after the program's name.
pub fn words_of<E: Env>(alloc: Global, env: &E) -> Result<Vec<String>, CommandError> {
    let mut words = Vec::new(alloc);
    // The first word is the program's name.
    for place in 1..usize::MAX {
        let Some(bytes) = word_bytes(alloc, env, place)? else {
            break;
        };
        match String::from_utf8(bytes) {
            Ok(word) => {
                if words.push(word).is_err() {
                    return Err(CommandError::Stopped(Stopped::Memory));
                }
            }
            Err(_) => return Err(CommandError::NoUtf8(place)),
        }
    }
    Ok(words)
}
