// Prints the medium classes: their count, then for each its number, block bytes, pages per span and blocks per span.
#![tactic(auto)]

ghost use Rattle.std.specs.Prelude.{◌≡◌, ◌<◌};
ghost use Rattle.mediumlist.specs.Line.{line_of};

use std::{fmt, io};

// What a line says of a class.
#[derive(Drop)]
struct Line {
    class: u32,
    bytes: u32,
    pages: u32,
    blocks: u32,
}

fn describe(class: u32) -> Line
    requires { class < 12 }
    ensures { result ≡ line_of class }
{
    let bytes = classes::block_bytes(classes::NUM_CLASSES + class);
    Line {
        class,
        bytes,
        pages: classes::span_pages_for(bytes),
        blocks: classes::medium_capacity_for(bytes),
    }
}

impl fmt::Display for Line {
    fn fmt<W: fmt::Write>(&self, f: &mut fmt::Formatter<W>) -> fmt::Result {
        write!(
            f,
            "{} {} {} {}",
            self.class, self.bytes, self.pages, self.blocks
        )
    }
}

fn main(rt: HostRuntime) -> io::Result<()> {
    println!(rt; "medium {}", classes::NUM_MEDIUM)?;
    for class in 0..classes::NUM_MEDIUM {
        println!(rt; "{}", describe(class))?;
    }
    Ok(())
}
