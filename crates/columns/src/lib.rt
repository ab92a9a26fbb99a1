// Column files for the boxes: the file of one column of an image, an image from such files, and how long each of them is.
#![tactic(auto)]

ghost use Rattle.std.specs.Prelude.{◌≡◌, ◌≤◌};
ghost use Rattle.refusal.specs.Number.{answer_value};
ghost use Rattle.laws.specs.Left.{Leaves};
ghost use Rattle.stripe.specs.Params.{Admitted};
ghost use Rattle.stripe.specs.Reading.{Image};
ghost use Rattle.columns.specs.Export.{export_sound, export_of, file_length_sound, file_length_of};
ghost use Rattle.columns.specs.Import.{absent, import_sound, import_of, files_length_of};
ghost use Rattle.columns.specs.Inner.{AcceptedFiles};

use refusal::Refusal;
use stripe::Params;

// The bytes of the files of all columns of the largest image: numbers and counts, strips, and the revisions of data columns.
pub const LARGEST_FILES: usize = (column_file::REVISIONS_FROM
    + 2
    + Params::MOST_COLUMNS * Params::LARGEST_STRIP)
    * Params::LARGEST_PRIME
    + 4 * Params::MOST_COLUMNS;

// ---- the image of files

// The pattern of the columns that were not met.
fn absent_of(q: Params, met: u64) -> u64
    requires { Admitted q }
    ensures { result ≡ absent q met }
{
    let all: u64 = 1 << (q.k + q.r);
    (met ^ (all - 1)) % all
}

// The image of files that were all accepted.
fn import_sound(files: &[u8], q: Params, met: u64, image: &mut [u8]) -> Result<u64, Refusal>
    requires { Admitted q × AcceptedFiles files.now q met }
    ensures { Leaves (import_sound files.now image.old q met) result image.new }
{
    if image.len() != q.image_length() {
        return Err(Refusal::Room);
    }
    filling::fill(files, q, met, image);
    Ok(absent_of(q, met))
}

// Fills the image from column files, one after another, with zeros in the absent columns; gives the pattern of these.
pub fn import(files: &[u8], image: &mut [u8]) -> Result<u64, Refusal>
    ensures { Leaves (import_of files.now image.old) result image.new }
{
    let met = file_by_file::meet(files)?;
    import_sound(files, stripe::numbers(files, 0), met, image)
}

// How long the image is that such files make.
pub fn files_length(files: &[u8]) -> Result<usize, Refusal>
    ensures value { result ≡ files_length_of files.now }
    ensures within { answer_value result ≤ 1874176 }
{
    file_by_file::meet(files)?;
    Ok(stripe::numbers(files, 0).image_length())
}

// ---- the file of a column

// The file of column n of an accepted image.
fn export_sound(image: &[u8], q: Params, n: usize, file: &mut [u8]) -> Result<(), Refusal>
    requires { Image image.now q }
    ensures { Leaves (export_sound image.now n file.old q) result file.new }
{
    if n >= q.k + q.r {
        return Err(Refusal::Column);
    }
    if file.len() != column_file::length(q, n) {
        return Err(Refusal::Room);
    }
    column_file::fill(image, q, n, file);
    Ok(())
}

// Writes the file of column n of an image.
pub fn export(image: &[u8], n: usize, file: &mut [u8]) -> Result<(), Refusal>
    ensures { Leaves (export_of image.now n file.old) result file.new }
{
    let q = stripe::read(image)?;
    export_sound(image, q, n, file)
}

// How long the file of column n is.
fn measure(q: Params, n: usize) -> Result<usize, Refusal>
    requires { Admitted q }
    ensures value { result ≡ file_length_sound n q }
    ensures within { answer_value result ≤ 30742 }
{
    if n >= q.k + q.r {
        return Err(Refusal::Column);
    }
    Ok(column_file::length(q, n))
}

// How long the file of column n of an image is.
pub fn file_length(image: &[u8], n: usize) -> Result<usize, Refusal>
    ensures value { result ≡ file_length_of image.now n }
    ensures within { answer_value result ≤ 30742 }
{
    let q = stripe::read(image)?;
    measure(q, n)
}
