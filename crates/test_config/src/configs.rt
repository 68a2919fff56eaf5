//! What is printed of configurations.

use crate::advised::print_advice;
use config::config::{Boxes, Channel, Config, Group};
use config::read::read_config;
use config_words::fault::{ConfigFault, FaultKind};
use rules::options::{Cells, Sides};
use std::alloc::Global;
use test_scripts::reported::Reported;

/// Prints what a text says as a configuration, or its fault. Where advice is asked, prints what to do about the fault alone.
pub fn print_read(alloc: Global, reported: &mut Reported, text: &[u8], is_advised: bool) {
    match read_config(alloc, text) {
        Ok(config) => {
            if is_advised {
                reported.answer("nothing");
            } else {
                print_config(reported, &config);
            }
            drop(config);
        }
        Err(fault) if is_advised => print_advice(alloc, reported, text, fault),
        Err(fault) => report_fault(reported, fault),
    }
}

/// Prints a fault. Want of memory counts as a loss.
fn report_fault(reported: &mut Reported, fault: ConfigFault) {
    if matches!(fault.kind, FaultKind::NoMemory) {
        reported.lose();
    }
    reported.begin();
    reported.text("line ");
    reported.number(fault.line as u64);
    reported.text(" kind ");
    reported.number(u64::from(fault.kind.number()));
    reported.text(" (");
    reported.shown(&fault.kind);
    reported.text(")");
    reported.end();
}

fn print_config(reported: &mut Reported, config: &Config) {
    for store in &config.imap_stores {
        reported.begin();
        add(reported, &["imap store ", store.name.as_str()]);
        add(reported, &[": host ", store.host.as_str(), " port "]);
        reported.number(u64::from(store.port));
        add(reported, &[" user ", store.user.as_str()]);
        add(reported, &[" pass ", store.pass.as_str()]);
        reported.end();
    }
    for store in &config.maildir_stores {
        reported.begin();
        add(reported, &["maildir store ", store.name.as_str()]);
        add(reported, &[": path ", store.path.as_str()]);
        add(reported, &[" inbox ", store.inbox.as_str()]);
        reported.end();
    }
    for channel in &config.channels {
        print_channel(reported, config, channel);
    }
    for group in &config.groups {
        print_group(reported, config, group);
    }
}

fn print_channel(reported: &mut Reported, config: &Config, channel: &Channel) {
    let far = match config.imap_stores.get(channel.far) {
        Some(store) => store.name.as_str(),
        None => "?",
    };
    let near = match config.maildir_stores.get(channel.near) {
        Some(store) => store.name.as_str(),
        None => "?",
    };
    reported.begin();
    add(reported, &["channel ", channel.name.as_str()]);
    add(reported, &[": far ", far, " near ", near]);
    add_boxes(reported, &channel.boxes);
    add_cells(reported, channel.cells);
    add(reported, &[" create ", sides_word(channel.create)]);
    add(reported, &[" expunge ", sides_word(channel.expunge)]);
    for keyword in channel.keywords.as_slice() {
        reported.text(" keyword ");
        reported.bytes(&[keyword.letter, b' ']);
        reported.bytes(keyword.name.as_slice());
    }
    reported.end();
}

fn add_boxes(reported: &mut Reported, boxes: &Boxes) {
    match boxes {
        Boxes::Pair { far, near } => {
            add(reported, &[" boxes ", far.as_str(), " and ", near.as_str()]);
        }
        Boxes::Matching(patterns) => {
            reported.text(" patterns");
            for word in patterns.as_slice() {
                add(reported, &[" ", word.as_str()]);
            }
        }
    }
}

/// Adds the words of the cells that are chosen, or `all` or `none`.
fn add_cells(reported: &mut Reported, cells: Cells) {
    let words = [
        (cells.new.pull, " PullNew"),
        (cells.gone.pull, " PullGone"),
        (cells.flags.pull, " PullFlags"),
        (cells.new.push, " PushNew"),
        (cells.gone.push, " PushGone"),
        (cells.flags.push, " PushFlags"),
    ];
    let mut count = 0usize;
    for (is_on, _) in words.iter() {
        if *is_on {
            count = count.saturating_add(1);
        }
    }
    reported.text(" sync");
    match count {
        0 => reported.text(" none"),
        6 => reported.text(" all"),
        _ => {
            for (is_on, word) in words.iter() {
                reported.text(if *is_on { word } else { "" });
            }
        }
    }
}

fn sides_word(sides: Sides) -> &'static str {
    match (sides.far, sides.near) {
        (false, false) => "None",
        (true, false) => "Far",
        (false, true) => "Near",
        (true, true) => "Both",
    }
}

fn print_group(reported: &mut Reported, config: &Config, group: &Group) {
    reported.begin();
    add(reported, &["group ", group.name.as_str(), ":"]);
    for place in &group.channels {
        let channel = match config.channels.get(*place) {
            Some(channel) => channel.name.as_str(),
            None => "?",
        };
        add(reported, &[" ", channel]);
    }
    reported.end();
}

/// Adds texts as they stand.
fn add(reported: &mut Reported, texts: &[&str]) {
    for text in texts {
        reported.text(text);
    }
}
