//! Lines made into slugs.

ghost use Rattle.std.specs.Prelude.{◌≡◌, [], ◌∷◌, ◌≤◌, ◌<◌, ◌+◌, ◌*◌, ◌-◌, length, Some, None, IfOk, IfErr, map};
ghost use Rattle.tape_frames.specs.Frames.{most_frames};
ghost use Rattle.line_check.specs.declared.fault.LineFault.TheVariants.{OutOfMemory};
ghost use Rattle.line_check.specs.Slugs.{fixed_width, is_band, fixed_of, bands_of, least_width, greatest_width, kind_of, item_of_sort, misfit, looseness, StandsAt, IsSlug, IsJustified, Quads};
ghost use Rattle.line_check.specs.Spreading.{sorts_of, IsMisfit, IsOversetBy, IsRoomBeside};

use crate::fault::LineFault;
use crate::slug::{Kind, Slug};
use crate::sort::{Sort, Sorts};
use slug_reader::{Item, Line, Quad};
use std::alloc::{AllocError, Global};
use widths::Widths;

/// What a line comes to before it is cast.
#[derive(Clone, Copy)]
pub struct Tally {
    /// The width of its matrices and fixed spaces, in units.
    pub fixed: u32,
    /// How many spacebands it has.
    pub bands: u32,
}

/// What one item comes to.
fn tally_one(item: &Item) -> Tally
    ensures fixed { result.fixed ≡ fixed_width item.now }
    ensures bands { result.bands ≡ bands_of (item.now ∷ []) }
    ensures range { (result.fixed ≤ 65535) × (result.bands ≤ 1) }
{
    match item {
        Item::Matrix { width, .. } | Item::Space { width } => Tally {
            fixed: u32::from(*width),
            bands: 0,
        },
        Item::Band => Tally { fixed: 0, bands: 1 },
    }
}

/// What a line comes to.
pub fn tally_of(items: &[Item]) -> Tally
    requires { length items.now ≤ most_frames }
    ensures fixed { result.fixed ≡ fixed_of items.now }
    ensures bands { result.bands ≡ bands_of items.now }
    ensures range { (result.fixed ≤ 65535 * most_frames) × (result.bands ≤ most_frames) }
{
    let mut fixed = 0;
    let mut bands = 0;
    for item in items {
        let one = tally_one(item);
        fixed += one.fixed;
        bands += one.bands;
    }
    Tally { fixed, bands }
}

/// The sorts of a line whose bands have this width, the first `wider` of them a unit more.
fn sorts_of(alloc: Global, items: &[Item], width: u16, wider: u32) -> Result<Sorts, AllocError>
    requires { width < 65535 }
    ensures { IfOk result (λ sorts. sorts ≡ sorts_of width wider items.now) }
{
    let mut sorts = Vec::with_capacity(alloc, items.len())?;
    let mut wider = wider;
    for item in items {
        let sort = match item {
            Item::Matrix { name, rail, width } => Sort::Matrix {
                name: name.copy(),
                rail: *rail,
                width: *width,
            },
            Item::Band => {
                let more = wider.min(1);
                wider -= more;
                Sort::Band {
                    width: width + more as u16,
                }
            }
            Item::Space { width } => Sort::Space { width: *width },
        };
        sorts.push(sort)?;
    }
    Ok(Sorts::new(sorts))
}

/// So much shared out over the bands: the width of each, and how many of the first take a unit more.
fn share(rest: u32, bands: u32) -> (u16, u32)
    requires fits { rest ≤ bands * 999 }
    requires bands { bands ≤ most_frames }
    ensures whole { bands * result.0 + result.1 ≡ rest }
    ensures less { 0 < bands → result.1 < bands }
    ensures small { result.0 ≤ 999 }
{
    if bands == 0 {
        return (0, 0);
    }
    ((rest / bands) as u16, rest % bands)
}

/// A line without a quad, whose least width the measure has room for.
fn justified(
    alloc: Global,
    items: &[Item],
    widths: &Widths,
    tally: Tally,
) -> Result<Slug, LineFault>
    requires fixed { (tally.fixed ≡ fixed_of items.now) × (tally.fixed ≤ 65535 * most_frames) }
    requires bands { (tally.bands ≡ bands_of items.now) × (tally.bands ≤ most_frames) }
    requires fits { least_width widths.now items.now ≤ widths.now.measure }
    ensures slug { IfOk result (λ slug. IsJustified widths.now items.now slug) }
    ensures fault { IfErr result (λ e. IsMisfit (looseness widths.now items.now None) e) }
{
    let measure = u32::from(widths.measure());
    let greatest = tally.fixed + tally.bands * u32::from(widths.band_max());
    if greatest < measure {
        return Err(LineFault::Loose {
            under: measure - greatest,
        });
    }
    let (width, wider) = share(measure - tally.fixed, tally.bands);
    let items = sorts_of(alloc, items, width, wider)?;
    Ok(Slug {
        items,
        kind: Kind::J,
        left: 0,
        right: 0,
    })
}

/// What a quad fills a line out with: so much blank, in units.
#[derive(Clone, Copy)]
struct Margin {
    quad: Quad,
    blank: u16,
}

/// The blank on the left and on the right.
fn sides(margin: Margin) -> (u16, u16)
    ensures whole { result.0 + result.1 ≡ margin.blank }
    ensures stands { StandsAt margin.quad result.0 result.1 }
{
    let blank = margin.blank;
    match margin.quad {
        Quad::Left => (0, blank),
        Quad::Center => (blank / 2, blank - blank / 2),
        Quad::Right => (blank, 0),
    }
}

/// A line with a quad, beside which so much blank is left.
fn quadded(
    alloc: Global,
    items: &[Item],
    widths: &Widths,
    margin: Margin,
) -> Result<Slug, LineFault>
    requires { margin.blank + least_width widths.now items.now ≡ widths.now.measure }
    ensures slug { IfOk result (λ slug. (map item_of_sort slug.items ≡ items.now) × Quads widths.now (fixed_of items.now) margin.quad slug) }
    ensures memory { IfErr result (λ e. e ≡ OutOfMemory) }
{
    let (left, right) = sides(margin);
    let items = sorts_of(alloc, items, widths.band_min(), 0)?;
    Ok(Slug {
        items,
        kind: kind_of(margin.quad),
        left,
        right,
    })
}

/// The kind of a slug with this quad.
fn kind_of(quad: Quad) -> Kind
    ensures { result ≡ kind_of quad }
{
    match quad {
        Quad::Left => Kind::L,
        Quad::Center => Kind::C,
        Quad::Right => Kind::R,
    }
}

/// How much the measure leaves beside a line with its bands at their least, in units; or by how much the line is overset.
fn room(widths: &Widths, tally: Tally) -> Result<u16, LineFault>
    requires range { (tally.fixed ≤ 65535 * most_frames) × (tally.bands ≤ most_frames) }
    ensures room { IfOk result (IsRoomBeside widths.now.measure (tally.fixed + tally.bands * widths.now.band_min)) }
    ensures over { IfErr result (IsOversetBy widths.now.measure (tally.fixed + tally.bands * widths.now.band_min)) }
{
    let measure = u32::from(widths.measure());
    let least = tally.fixed + tally.bands * u32::from(widths.band_min());
    if least > measure {
        return Err(LineFault::Overset {
            over: least - measure,
        });
    }
    Ok((measure - least) as u16)
}

/// The slug of a line.
///
/// `Overset` comes where the line has more than the measure though its bands are at their least, else `Loose` where
/// it has no quad and less than the measure though its bands are at their greatest. A line that fits has a slug, and
/// `OutOfMemory` comes where that could not be kept.
pub fn check(alloc: Global, line: &Line, widths: &Widths) -> Result<Slug, LineFault>
    ensures slug { IfOk result (λ slug. (misfit widths.now line.now ≡ None) × IsSlug widths.now line.now slug) }
    ensures fault { IfErr result (λ e. IsMisfit (misfit widths.now line.now) e) }
{
    let items = line.items.as_slice();
    let tally = tally_of(items);
    let blank = room(widths, tally)?;
    match line.quad {
        None => justified(alloc, items, widths, tally),
        Some(quad) => quadded(alloc, items, widths, Margin { quad, blank }),
    }
}
