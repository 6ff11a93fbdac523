// Prints a shelf label: an image and, where there is a second argument, a publisher's label file are named by the arguments. `result=shown`,
// then a line for each text, by tag and then by its number, the label file's before the image's; then `twice=` for a single-value tag that
// the image, or the label file, gives twice; and `texts=`, how many lines those were. A refusal is `result=refused` with number and place,
// and what cannot be read `result=stopped` with the file and the reason. Texts are shown by `shelf`, release dates by `date`.
#![tactic(auto)]

mod date;

ghost use Rattle.std.specs.Prelude.{◌≤◌, IfOk};
ghost use Rattle.places.specs.Limits.{image_limit};

use blocks::PAYLOAD_LIMIT;
use files::{Argument, Failure};
use metadata::{LAST_TAG, NAME_TAG, SHORT_NAME_TAG};
use places::IMAGE_LIMIT;
use std::io;

const IMAGE: Argument = Argument {
    place: 1,
    word: "IMAGE",
};

const LABEL: Argument = Argument {
    place: 2,
    word: "LABEL",
};

const DATE_TAG: u8 = 0x04;

// A text has at most 255 bytes, and each is shown by four at most.
const TEXT_ROOM: usize = 1020;

// A tag by the name that 001's table gives its variable.
fn name_of(tag: u8) -> &'static str {
    match tag {
        0x00 => "name",
        0x01 => "short_name",
        0x02 => "author",
        0x03 => "publisher",
        0x04 => "release_date",
        0x05 => "license",
        0x06 => "description",
        0x07 => "misc",
        0x08 => "game_art_by",
        0x09 => "music_by",
        0x0A => "sfx_by",
        0x0B => "voices_by",
        0x0C => "docs_by",
        0x0D => "concept_by",
        0x0E => "box_art_by",
        _ => "more_info_at",
    }
}

fn say_text(rt: &HostRuntime, text: &[u8]) -> io::Result<()> {
    let mut out = [0; TEXT_ROOM];
    // What was written stands in the buffer.
    let n = shelf::escape(&mut out, text).min(TEXT_ROOM);
    rt.write_all(&out[..n])
}

fn show(rt: &HostRuntime, tag: u8, text: &[u8]) -> io::Result<()> {
    print!(rt; "{}=", name_of(tag))?;
    if tag == DATE_TAG {
        date::say_date(rt, text)?;
    } else {
        say_text(rt, text)?;
    }
    println!(rt)
}

// The nth text with the tag.
fn text_at<'a>(label: &'a [u8], image: &'a [u8], tag: u8, n: usize) -> Option<&'a [u8]> {
    let place = lookup::text_of(label, image, tag, n)?;
    Some(lookup::shown(label, image, Some(place)))
}

// Every text with the tag, the first one first; answers how many. No file here has so many as an image has bytes.
fn show_tag(rt: &HostRuntime, label: &[u8], image: &[u8], tag: u8) -> io::Result<usize>
    ensures { IfOk result (λ n. n ≤ image_limit) }
{
    for n in 0..IMAGE_LIMIT {
        match text_at(label, image, tag, n + 1) {
            Some(text) => show(rt, tag, text)?,
            None => return Ok(n),
        }
    }
    Ok(IMAGE_LIMIT)
}

// A single-value tag that the image gives twice, over all its blocks, or the label file by itself.
fn is_twice(label: &[u8], image: &[u8], tag: u8) -> bool {
    lookup::is_twice(image, tag) || metadata::is_twice(label, tag)
}

fn shelf_label(rt: &HostRuntime, label: &[u8], image: &[u8]) -> io::Result<()> {
    println!(rt; "result=shown")?;
    let mut texts = 0;
    for tag in 0..=LAST_TAG {
        texts += show_tag(rt, label, image, tag)?;
    }
    for tag in [NAME_TAG, SHORT_NAME_TAG] {
        if is_twice(label, image, tag) {
            println!(rt; "twice={}", name_of(tag))?;
        }
    }
    println!(rt; "texts={texts}")
}

// A label file that no block can hold is refused here as it is in pressing, for it is not read to its end.
fn shown(rt: &HostRuntime, label: &[u8], image: &[u8]) -> Result<(), Failure> {
    lookup::refusal_of(label, image)?;
    if PAYLOAD_LIMIT < label.len() {
        return Err(Failure::Refused(basics::refuse(12, 0)));
    }
    let _ = shelf_label(rt, label, image);
    Ok(())
}

// Reads the image, and the label file if there is one; no label file is an empty one. There is room for one byte more than each may have,
// so that a longer file is seen to be longer.
fn labels(rt: &HostRuntime) -> Result<(), Failure> {
    let mut file: [u8; IMAGE_LIMIT + 1] = files::room(0);
    let mut label: [u8; PAYLOAD_LIMIT + 1] = files::room(0);
    let image = files::read_argument(rt, IMAGE, &mut file)?;
    match files::read_given(rt, LABEL, &mut label)? {
        Some(l) => shown(rt, &label[..l.n], &file[..image.n]),
        None => shown(rt, &[], &file[..image.n]),
    }
}

fn main(rt: HostRuntime) {
    if let Err(failure) = labels(&rt) {
        let _ = rt.print(failure);
    }
}
