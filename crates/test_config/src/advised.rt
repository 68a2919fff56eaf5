//! What is printed about configurations that are refused.

use config::advice::advice;
use config_words::fault::ConfigFault;
use std::alloc::Global;
use test_scripts::reported::Reported;

/// Prints what to do about a text that is no configuration.
pub fn print_advice(alloc: Global, reported: &mut Reported, text: &[u8], fault: ConfigFault) {
    match advice(alloc, "FILE", text, fault) {
        Ok(lines) => {
            for line in lines.as_str().split('\n').skip(1) {
                reported.answer(line);
            }
        }
        Err(_) => reported.lose(),
    }
}
