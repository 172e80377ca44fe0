//! Tests of the commands. Cases of `run` over devices in memory are written as text, a step in each line, and the tests
//! are such texts.
//!
//! A step is a word and what follows it. `/` stands for a line feed in what is text. These say what a case begins with; without
//! them no device has bytes, and none of its calls fails:
//!
//! | Step | Meaning |
//! |---|---|
//! | `case NAME` | the devices as they are at first; NAME stands before what is found |
//! | `input TEXT`, `script TEXT` | the bytes of the input, of the script |
//! | `mesh VERTICES FACES/LINES` | the input is this mesh in ASCII |
//! | `more NUMBERS` | so many bytes more of the input, by their values |
//! | `binary ORDER` | the input is the header of three vertices and a triangle in binary, `little` or `big` endian, with a signed count of one byte |
//! | `store NUMBERS` | the store's bytes, as 32-bit little-endian numbers, or `square` or `doubled` for a worked store |
//! | `byte PLACE VALUE`, `cut LENGTH` | one byte of the store is changed, the store is cut; a byte behind its end makes it longer by one |
//! | `work_room N`, `store_room N`, `out_room N` | a room in bytes, 65,536 where it isn't said |
//! | `input_fails NUMBERS`, and so `script_fails`, `work_fails`, `store_fails`, `out_fails` | the numbers of the device's calls that fail, counted anew in each run |
//! | `again` | the first part of the last run is the input |
//!
//! and these run a command and say what is expected of the last run:
//!
//! | Step | Meaning |
//! |---|---|
//! | `run WORDS` | runs the command of these words, over the store that the last run left |
//! | `each_work WORDS` | runs it with the first call of the work file failing, then with the second, and so on, while the work file is blamed; the first other run is kept |
//! | `line TEXT` | the status has this line, which is empty where all was written |
//! | `notes TEXT` | these are all notes |
//! | `parts N` | there are so many finished parts |
//! | `part PLACE TEXT`, `mesh_part PLACE VERTICES FACES/LINES` | this part has these bytes, those of this mesh |
//! | `faces PLACE N` | the header of this part says so many faces |
//! | `closed PLACE` | this part has each directed edge as often as the edge back |
//! | `left NUMBERS`, `left_bytes N` | the store has these bytes, so many bytes |
//! | `unused DEVICE` | the first call of this device, which is said to fail, is still to come |
#![tactic(auto)]

#[cfg(test)]
mod build_tests;
#[cfg(test)]
mod case_tests;
#[cfg(test)]
mod cases;
#[cfg(test)]
mod closed;
#[cfg(test)]
mod devices;
#[cfg(test)]
mod finest_tests;
#[cfg(test)]
mod info_tests;
#[cfg(test)]
mod replay_tests;
#[cfg(test)]
mod status_tests;
#[cfg(test)]
mod steps;
#[cfg(test)]
mod stores;
#[cfg(test)]
mod texts;
#[cfg(test)]
mod words_tests;
#[cfg(test)]
mod work_tests;
#[cfg(test)]
mod zeros;

#[cfg(test)]
pub use cases::failures;
