// Room for the largest file, image and label of the second program (second/README.md), and a little more: a file that fills its room was
// not read to its end.
ghost use Rattle.std.specs.Prelude.{◌≡◌, ◌+◌, length};
ghost use Rattle.places.specs.Limits.{image_limit};

use places::IMAGE_LIMIT;

const IMAGE_ROOM: usize = IMAGE_LIMIT + 24;

pub fn file_room() -> [u8; 1000001]
    ensures { 1000001 ≡ length result }
{
    [0; 1000001]
}

pub fn image_room() -> [u8; IMAGE_ROOM]
    ensures { image_limit + 24 ≡ length result }
{
    [0; IMAGE_ROOM]
}

pub fn label_room() -> [u8; 70016]
    ensures { 70016 ≡ length result }
{
    [0; 70016]
}
