// A class's partial list: pages linked both ways by their codes, page + 1, and 0 where there is none.
ghost use Rattle.std.specs.Prelude.{◌≡◌, ◌≤◌, ◌<◌, length};
ghost use Rattle.words.specs.Limits.{class_rows};
ghost use Rattle.fields.specs.Field.{prev, words};
ghost use Rattle.fields.specs.Outcome.{put_at};
ghost use Rattle.pages.specs.Links.{point_next, linked, cut_out, link, unlink};
ghost use Rattle.pages.specs.way.Pre.{LinkPre, CutPre, UnlinkPre};

use fields::class::ClassField;
use fields::page::PageField;

// PREV of the page that a code stands for, where it stands for one.
fn set_prev_at(meta: &mut [u32], code: u32, v: u32)
    requires { words code ≤ length meta.old }
    ensures { meta.new ≡ put_at meta.old prev code v }
{
    if code != 0 {
        PageField::Prev.set(meta, code - 1, v);
    }
}

// What points forward to a place: NEXT of the page before it, or else the class's PARTIAL.
fn point_next(meta: &mut [u32], c: u32, code: u32, v: u32)
    requires c_lt_class_rows { c < class_rows }
    requires code_in_bounds { words code ≤ length meta.old }
    ensures { meta.new ≡ point_next meta.old c code v }
{
    if code == 0 {
        ClassField::Partial.set(meta, c, v);
    } else {
        PageField::Next.set(meta, code - 1, v);
    }
}

// The page heads the list; LISTED is the caller's.
fn enter_head(meta: &mut [u32], c: u32, q: u32)
    requires { LinkPre meta.old c q }
    ensures { meta.new ≡ linked meta.old c q }
{
    let head = ClassField::Partial.get(meta, c);
    PageField::Next.set(meta, q, head);
    PageField::Prev.set(meta, q, 0);
    set_prev_at(meta, head, q + 1);
    ClassField::Partial.set(meta, c, q + 1);
}

pub fn link_partial(meta: &mut [u32], c: u32, q: u32)
    requires { LinkPre meta.old c q }
    ensures { meta.new ≡ link meta.old c q }
{
    enter_head(meta, c, q);
    PageField::Listed.set(meta, q, 1);
}

// Page q, whose neighbours' codes are `next` and `prev`, is cut out.
fn cut_out(meta: &mut [u32], c: u32, q: u32, next: u32, prev: u32)
    requires { CutPre meta.old c q next prev }
    ensures { meta.new ≡ cut_out meta.old c q next prev }
{
    point_next(meta, c, prev, next);
    set_prev_at(meta, next, prev);
    PageField::Next.set(meta, q, 0);
    PageField::Prev.set(meta, q, 0);
}

pub fn unlink_partial(meta: &mut [u32], c: u32, q: u32)
    requires { UnlinkPre meta.old c q }
    ensures { meta.new ≡ unlink meta.old c q }
{
    let next = PageField::Next.get(meta, q);
    let prev = PageField::Prev.get(meta, q);
    cut_out(meta, c, q, next, prev);
    PageField::Listed.set(meta, q, 0);
}
