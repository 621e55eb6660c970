// Points of a board by their numbers: row × width + column. Sizes, rows and columns are bytes, as in the crate; points are usize.
ghost use Rattle.std.specs.Prelude.{◌&&◌, ◌≡◌, ltb};
ghost use Rattle.rules.specs.Points as points;

pub fn is_coord_valid(height: u8, width: u8, row: u8, column: u8) -> bool
    ensures { result ≡ ltb row height && ltb column width }
{
    row < height && column < width
}

pub fn area(height: u8, width: u8) -> usize
    ensures { result ≡ points.area height width }
{
    (height as usize) * (width as usize)
}

pub fn two_to_1dim(width: u8, row: u8, column: u8) -> usize
    ensures { result ≡ points.index width row column }
{
    (row as usize) * (width as usize) + (column as usize)
}

// Where the width is 0, row and column are what the definitions' division by 0 gives: 0, and the point itself.
pub fn row_of(width: u8, point: usize) -> usize
    ensures { result ≡ points.row width point }
{
    if width == 0 {
        return 0;
    }
    point / (width as usize)
}

pub fn column_of(width: u8, point: usize) -> usize
    ensures { result ≡ points.column width point }
{
    if width == 0 {
        return point;
    }
    point % (width as usize)
}

pub fn on_board(height: u8, width: u8, point: usize) -> bool
    ensures { result ≡ ltb point (points.area height width) }
{
    point < area(height, width)
}
