//! Rows whose file is made, and taken up at once.

ghost use Rattle.std.specs.Prelude.{◌≡◌, IfOk, IfErr};
ghost use Rattle.rows_saved.specs.declared.fault.RowsFault.TheVariants.{WrongSchema};
ghost use Rattle.tape_frames.specs.Entries.{version_of};
ghost use Rattle.rows_files.specs.Causes.{refused_by};
ghost use Rattle.rows_files.specs.Creating.{AreMade, AreNotMade, MayBeMade};

use crate::causes::RefusedRows;
use crate::files::RowFiles;
use rows_saved::{Identity, Rows, RowsFault};
use tape_frames::Version;

/// The rows, where they are of this version. A file that another put there in between may be in another layout.
fn of_version<R: Rows>(rows: R, version: Version) -> Result<R, RefusedRows>
    ensures rows { IfOk result (λ taken. taken ≡ rows) }
    ensures version { IfOk result (λ taken. R.version taken ≡ version_of version) }
    ensures refused { IfErr result (λ refused. refused ≡ refused_by WrongSchema) }
{
    if rows.version() == version {
        Ok(rows)
    } else {
        Err(RefusedRows::by(RowsFault::WrongSchema))
    }
}

/// A row file that is to be made.
#[derive(Clone, Copy)]
pub struct NewRows<'a> {
    /// Where it is to stand.
    pub path: &'a str,
    /// The station whose rows are saved in it.
    pub identity: Identity,
    /// The version whose layout its rows have.
    pub version: Version,
}

/// Makes a row file, and takes up the rows in it. Only whoever was asked to make one may call it.
///
/// It is refused as [`RowFiles::make`] and [`RowFiles::open`] are; and with `WrongSchema`, where the file at the path is in
/// another layout by then.
pub fn create_rows<F: RowFiles>(
    rt: &HostRuntime,
    row_files: &F,
    new: NewRows<'_>,
) -> Result<F::Rows, RefusedRows>
    requires { MayBeMade (F.may_make row_files.now) new.identity }
    ensures made { IfOk result (AreMade F.leaves F.opens F.Rows.version row_files.now new.entry.path.now new.entry.identity new.entry.version) }
    ensures open { IfOk result (λ rows. F.Rows.kept rows → F.Rows.is_open rows) }
    ensures refused { IfErr result (AreNotMade F.refuses row_files.now) }
{
    row_files.make(rt, new)?;
    let rows = row_files.open(rt, new.path, Some(new.identity))?;
    of_version(rows, new.version)
}
