// The lines of the sheet: three columns, each two parted by a blank, and a line feed.
ghost use Rattle.std.specs.Prelude.{◌≡◌, ◌%◌, ◌<◌, length, ◌==◌};
ghost use Rattle.geometry.specs.Pick.{pick};
ghost use Rattle.sheet.specs.Line.{blank, digit, number_column, line_of};

// A line, its line feed counted.
pub const LINE_LENGTH: usize = 28;

// The columns' names.
pub(crate) const HEADING: [u8; LINE_LENGTH] = *b"  JOB      FIRST     BLOCKS\n";

// The line that a sheet ends with which breaks off.
pub(crate) const ASTERISKS: [u8; LINE_LENGTH] = *b"***************************\n";

// Where the columns begin and end; a blank stands behind the first and the second, and the line feed behind the third.
const JOB_END: usize = 5;

const FIRST_START: usize = JOB_END + 1;

const FIRST_END: usize = FIRST_START + 10;

const BLOCKS_START: usize = FIRST_END + 1;

const BLOCKS_END: usize = BLOCKS_START + 10;

// The last digit of what is left of a number, or a blank where nothing is left.
fn leading_digit(n: u64) -> u8
    ensures { result ≡ pick (n == 0) blank (digit (n % 10)) }
{
    if n == 0 { b' ' } else { b'0' + (n % 10) as u8 }
}

// Fills a column with a number, right-aligned; of a number that is too long, with its last digits, for which no format has a form.
#[tactic(auto, using(crate::proofs::Columns::fill_last))]
fn put_number(column: &mut [u8], n: u64)
    requires { 0 < length column.old }
    ensures { column.new ≡ number_column (length column.old) n }
{
    let last = column.len() - 1;
    column[last] = b'0' + (n % 10) as u8;
    let mut left = n / 10;
    for i in (0..last).rev() {
        column[i] = leading_digit(left);
        left /= 10;
    }
}

// Fills a line with a job's number, its first element's number and its count of blocks.
pub(crate) fn put_line(line: &mut [u8; LINE_LENGTH], job: u64, first: u64, blocks: u64)
    ensures { line.new ≡ line_of job first blocks }
{
    put_number(&mut line[..JOB_END], job);
    line[JOB_END] = b' ';
    put_number(&mut line[FIRST_START..FIRST_END], first);
    line[FIRST_END] = b' ';
    put_number(&mut line[BLOCKS_START..BLOCKS_END], blocks);
    line[BLOCKS_END] = b'\n';
}
