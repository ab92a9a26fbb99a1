// An image from column files that were all accepted: the columns of the files put in their place, zeros in the others.
#![tactic(auto)]

ghost use Rattle.std.specs.Prelude.{◌≡◌, ◌+◌, ◌*◌};
ghost use Rattle.laws.specs.Part.{part, put};
ghost use Rattle.stripe.specs.Layout.{column_length, revision_at};
ghost use Rattle.stripe.specs.Sections.{Fits};
ghost use Rattle.column_file.specs.File.{column_at, carried, revisions_from, strips_from};
ghost use Rattle.filling.specs.Filled.{zeros, blank, put_column, put_file, filled_from};
ghost use Rattle.filling.specs.Inner.{OneReady, AllReady, MetReady, Clearable, cleared_one, cleared};

use stripe::Params;

// Puts the revision of the file of a data column in its place.
fn put_revisions(files: &[u8], at: usize, q: Params, n: usize, image: &mut [u8])
    requires { OneReady files.now image.old q at n }
    ensures { image.new ≡ put image.old (revision_at n) (part files.now (at + revisions_from) (4 * carried q n)) }
{
    if n < q.k {
        column_file::copy_part(
            image,
            q.revision_at(n),
            files,
            at + column_file::REVISIONS_FROM,
            4,
        );
    }
}

// Puts the strips of the file of column n in their place.
fn put_strips(files: &[u8], at: usize, q: Params, n: usize, image: &mut [u8])
    requires { OneReady files.now image.old q at n }
    ensures { image.new ≡ put image.old (column_at q n) (part files.now (at + strips_from q n) (column_length q)) }
{
    let from = at + column_file::strips_from(q, n);
    column_file::copy_part(
        image,
        column_file::column_at(q, n),
        files,
        from,
        q.column_length(),
    );
}

// Puts the column of a file in its place.
fn put_file(files: &[u8], at: usize, q: Params, n: usize, image: &mut [u8])
    requires { OneReady files.now image.old q at n }
    ensures { image.new ≡ put_file files.now at q n image.old }
{
    put_revisions(files, at, q, n, image);
    put_strips(files, at, q, n, image);
}

// Puts the columns of all files in their place.
fn put_files(files: &[u8], q: Params, image: &mut [u8])
    requires { AllReady files.now image.old q }
    ensures { image.new ≡ filled_from files.now q 0 image.old }
{
    let mut at: usize = 0;
    // Stays: each file's own numbers tell where the next one starts, so the places are no range, no step and no chunks.
    while at < files.len() {
        let n = stripe::number(files, at + column_file::COLUMN_AT);
        put_file(files, at, q, n, image);
        at += column_file::length(q, n);
    }
}

// Clears the revision of a data column.
fn clear_revisions(image: &mut [u8], q: Params, n: usize)
    requires { Clearable image.old q n }
    ensures { image.new ≡ put image.old (revision_at n) (zeros (4 * carried q n)) }
{
    if n < q.k {
        engine::clear(image, q.revision_at(n), 4);
    }
}

// Clears column n and its revision.
fn clear_column(image: &mut [u8], q: Params, n: usize)
    requires { Clearable image.old q n }
    ensures { image.new ≡ put_column q n (zeros (4 * carried q n)) (zeros (column_length q)) image.old }
{
    clear_revisions(image, q, n);
    engine::clear(image, column_file::column_at(q, n), q.column_length());
}

// Clears column n where it was not met.
fn clear_unmet(image: &mut [u8], q: Params, met: u64, n: usize)
    requires { Clearable image.old q n }
    ensures { image.new ≡ cleared_one n q met image.old }
{
    if (met >> n) % 2 == 0 {
        clear_column(image, q, n);
    }
}

// Clears the columns that were not met: what the image held there is not to stay.
fn clear_absent(image: &mut [u8], q: Params, met: u64)
    requires { Fits image.old q }
    ensures { image.new ≡ cleared (q.k + q.r) q met image.old }
{
    for n in 0..q.k + q.r {
        clear_unmet(image, q, met, n);
    }
}

// Fills the image: each byte of a column is written once, from its file or with 0.
pub fn fill(files: &[u8], q: Params, met: u64, image: &mut [u8])
    requires { MetReady files.now image.old q met }
    ensures { image.new ≡ filled_from files.now q 0 (blank q) }
{
    clear_absent(image, q, met);
    stripe::put_counts(image, q);
    put_files(files, q, image);
}
