// Reading a grid: its columns by one code, then its rows by the other, each cut at every weight.
ghost use Rattle.std.specs.Prelude.{◌≡◌, ℕ, ◌+◌, ◌*◌, ◌<◌, ◌≤◌, ◌≢◌, length, if◌then◌else◌, nat_le, slice_index};
ghost use Rattle.code.specs.Cells.{good, blank};
ghost use Rattle.code.specs.declared.cells.Content.TheVariants.{Received};
ghost use Rattle.algebra.specs.Grids.{row, column, grids};
ghost use Rattle.code.specs.Calls.{found, reads};
ghost use Rattle.code.specs.Refusals.{clean};
ghost use Rattle.algebra.specs.Weights.{cut, heavy, heft, Found};
ghost use Rattle.algebra.specs.Parts.{Ready, Taken, Symbols, Weighed, Fresh, Tried, Renewed, Decoded, RowsDecoded, Says};
ghost use Rattle.algebra.specs.Readings.{Reached, RowReady, Roomy, ColumnsFound, Candidate};

use crate::judge::line_lawful;
use crate::whole::Product;
use alphabet::Alphabet;
use code::{BLANK, Code, Content, Counts, Reason, Refusal, check_cells, count};

// The length of a code that is known to be small.
pub(crate) fn length_of<C: Code>(code: &C) -> usize
    requires { (C.Code.codebook code.now).n ≤ 4096 }
    ensures { result ≡ (C.Code.codebook code.now).n }
{
    code.length()
}

// The distance of a code that is known to be small.
pub(crate) fn distance_of<C: Code>(code: &C) -> usize
    requires { (C.Code.codebook code.now).n ≤ 4096 }
    ensures { (result ≡ (C.Code.codebook code.now).d) × (result ≤ 4096) }
{
    code.distance()
}

// Copies column j of a grid with rows of n2 cells into a line.
pub(crate) fn take_column(grid: &[u16], n2: usize, j: usize, line: &mut [u16])
    requires fits { length grid.now ≡ length line.old * n2 }
    requires small { length grid.now ≤ 4096 }
    requires within { j < n2 }
    ensures { line.new ≡ column (length line.old) n2 grid.now j }
{
    for (i, cell) in line.iter_mut().enumerate() {
        *cell = grid[i * n2 + j];
    }
}

// Puts a word into column j of a grid.
pub(crate) fn put_column(word: &[u16], n2: usize, j: usize, grid: &mut [u16])
    requires fits { length grid.old ≡ length word.now * n2 }
    requires small { length grid.old ≤ 4096 }
    requires within { j < n2 }
    ensures here { column (length word.now) n2 grid.new j ≡ word.now }
    ensures others { (k : ℕ) → k < n2 → k ≢ j → column (length word.now) n2 grid.new k ≡ column (length word.now) n2 grid.old k }
{
    for (i, symbol) in word.iter().enumerate() {
        grid[i * n2 + j] = *symbol;
    }
}

// Reads a line by the code: the one word within reach, with its counts, or none.
fn read_line<C: Code>(code: &C, line: &[u16], word: &mut [u16], rest: &mut [u16]) -> Option<Counts>
    requires ready { Ready (C.Code.codebook code.now) (length line.now) (length rest.old) }
    requires tray { length word.old ≡ length line.now }
    requires taken { Taken (C.Code.codebook code.now).q line.now }
    ensures { Reached (C.Code.codebook code.now) line.now word.new result }
{
    code.read(line, word, rest).ok()
}

// Reads column j by the code, and puts the word into the grid; the weight of the column.
fn correct_column<C: Code>(
    code: &C,
    received: &[u16],
    n2: usize,
    j: usize,
    grid: &mut [u16],
    line: &mut [u16],
    word: &mut [u16],
    rest: &mut [u16],
) -> usize
    requires ready { Ready (C.Code.codebook code.now) (length line.old) (length rest.old) }
    requires lines { length word.old ≡ length line.old }
    requires fits { (length received.now ≡ length line.old * n2) × (length grid.old ≡ length line.old * n2) × (length grid.old ≤ 4096) }
    requires taken { Taken (C.Code.codebook code.now).q received.now }
    requires within { j < n2 }
    ensures found { Found (C.Code.codebook code.now) (column (length line.old) n2 received.now j) (column (length line.old) n2 grid.new j) result }
    ensures low { result ≤ 4096 }
    ensures others { (k : ℕ) → k < n2 → k ≢ j → column (length line.old) n2 grid.new k ≡ column (length line.old) n2 grid.old k }
{
    take_column(received, n2, j, line);
    match read_line(code, line, word, rest) {
        Some(found) => {
            put_column(word, n2, j, grid);
            found.cost()
        }
        None => distance_of(code),
    }
}

// Reads each column; weights[j] is the weight of column j.
fn correct_columns<C: Code>(
    code: &C,
    received: &[u16],
    grid: &mut [u16],
    weights: &mut [u16],
    lines: &mut [u16],
)
    requires ready { Roomy (C.Code.codebook code.now) (length lines.old) }
    requires fits { (length received.now ≡ (C.Code.codebook code.now).n * length weights.old) × (length grid.old ≡ (C.Code.codebook code.now).n * length weights.old) × (length grid.old ≤ 4096) }
    requires taken { Taken (C.Code.codebook code.now).q received.now }
    ensures { ColumnsFound (C.Code.codebook code.now) (length weights.old) received.now grid.new weights.new }
{
    let n1 = length_of(code);
    let n2 = weights.len();
    let (line, tail) = lines.split_at_mut(n1);
    let (word, rest) = tail.split_at_mut(n1);
    for (j, weight) in weights.iter_mut().enumerate() {
        let found = correct_column(code, received, n2, j, grid, line, word, rest);
        *weight = found as u16;
    }
}

fn cut_cell(cell: u16, weight: u16, t: usize) -> u16
    ensures { result ≡ (if nat_le t weight then blank else cell) }
{
    if t <= usize::from(weight) {
        BLANK
    } else {
        cell
    }
}

fn heavy_cell(most: usize, weight: u16, cell: u16, symbol: u16) -> usize
    requires { (most ≤ 4096) × (weight ≤ most) }
    ensures is { result ≡ heavy most weight cell symbol }
    ensures low { result ≤ 8192 }
{
    let weight = usize::from(weight);
    if cell == symbol {
        weight
    } else {
        2 * most - weight
    }
}

// The weights of the columns of a grid; a weight of `most` says that no word was found.
#[derive(Clone, Copy)]
struct Weights<'w> {
    each: &'w [u16],
    most: usize,
    ghost small: { most ≤ 4096 },
    ghost low: { (j : ℕ) → j < length each.now → slice_index each.now j ≤ most },
}

impl Weights<'_> {
    // The row with blanks where the weight is at least t.
    fn cut(&self, cells: &[u16], t: usize, line: &mut [u16])
        requires { (length line.old ≡ length cells.now) × (length self.now.each.now ≡ length cells.now) }
        ensures { line.new ≡ cut (length line.old) (λ j. slice_index self.now.each.now j) cells.now t }
    {
        for (j, cell) in line.iter_mut().enumerate() {
            *cell = cut_cell(cells[j], self.each[j], t);
        }
    }

    // What a word weighs against a row of the grid.
    fn weigh(&self, cells: &[u16], word: &[u16]) -> usize
        requires { (length word.now ≡ length cells.now) × (length self.now.each.now ≡ length cells.now) × (length cells.now ≤ 4096) }
        ensures { result ≡ heft (length cells.now) self.now.most (λ j. slice_index self.now.each.now j) cells.now word.now }
    {
        let mut total = 0;
        for ((cell, symbol), weight) in cells.iter().zip(word).zip(self.each) {
            total += heavy_cell(self.most, *weight, *cell, *symbol);
        }
        total
    }

    // Whether the cut at t + 1 blanks other cells than the cut at t.
    fn is_fresh(&self, t: usize) -> bool
        ensures { Fresh self.now.each.now t result }
    {
        t == 0 || self.each.iter().any(|weight| usize::from(*weight) == t)
    }
}

// Decodes the rows of a grid by a code, at the weights of the columns.
#[derive(Drop)]
struct RowDecoder<'c, 'w, C> {
    code: &'c C,
    weights: Weights<'w>,
}

impl<C: Code> RowDecoder<'_, '_, C> {
    // One try at a row.
    fn try_row(
        &self,
        cells: &[u16],
        t: usize,
        line: &mut [u16],
        word: &mut [u16],
        rest: &mut [u16],
    ) -> bool
        requires row { RowReady (C.Code.codebook self.now.code.now) self.now.weights.most self.now.weights.each.now cells.now (length line.old) (length word.old) (length rest.old) }
        requires inside { t ≤ self.now.weights.most }
        ensures { Tried (C.Code.codebook self.now.code.now) self.now.weights.most self.now.weights.each.now cells.now t word.new result }
    {
        self.weights.cut(cells, t, line);
        read_line(self.code, line, word, rest).is_some()
            && self.weights.weigh(cells, word) < self.weights.most * distance_of(self.code)
    }

    // One try at a row, unless the same was tried before.
    fn try_fresh(
        &self,
        cells: &[u16],
        t: usize,
        line: &mut [u16],
        word: &mut [u16],
        rest: &mut [u16],
    ) -> bool
        requires row { RowReady (C.Code.codebook self.now.code.now) self.now.weights.most self.now.weights.each.now cells.now (length line.old) (length word.old) (length rest.old) }
        requires inside { t < self.now.weights.most }
        ensures { Renewed (C.Code.codebook self.now.code.now) self.now.weights.most self.now.weights.each.now cells.now t word.new result }
    {
        self.weights.is_fresh(t) && self.try_row(cells, t + 1, line, word, rest)
    }

    // Decodes a row in place.
    fn decode_row(
        &self,
        cells: &mut [u16],
        line: &mut [u16],
        word: &mut [u16],
        rest: &mut [u16],
    ) -> bool
        requires row { RowReady (C.Code.codebook self.now.code.now) self.now.weights.most self.now.weights.each.now cells.old (length line.old) (length word.old) (length rest.old) }
        ensures { Decoded (C.Code.codebook self.now.code.now) self.now.weights.most self.now.weights.each.now cells.old cells.new result }
    {
        for t in 0..self.weights.most {
            if self.try_fresh(cells, t, line, word, rest) {
                cells.copy_from_slice(word);
                return true;
            }
        }
        false
    }

    // Decodes each of the n1 rows of the grid, until one is lost.
    fn decode_rows(&self, grid: &mut [u16], n1: usize, lines: &mut [u16]) -> bool
        requires ready { Roomy (C.Code.codebook self.now.code.now) (length lines.old) }
        requires fits { (length grid.old ≡ n1 * (C.Code.codebook self.now.code.now).n) × (length grid.old ≤ 4096) × (length self.now.weights.each.now ≡ (C.Code.codebook self.now.code.now).n) }
        requires weighed { (i : ℕ) → i < n1 → Weighed (C.Code.codebook self.now.code.now) self.now.weights.most self.now.weights.each.now (row (C.Code.codebook self.now.code.now).n grid.old i) }
        ensures { RowsDecoded (C.Code.codebook self.now.code.now) self.now.weights.most self.now.weights.each.now n1 (C.Code.codebook self.now.code.now).n grid.old grid.new result }
    {
        let n2 = length_of(self.code);
        let (line, tail) = lines.split_at_mut(n2);
        let (word, rest) = tail.split_at_mut(n2);
        for i in 0..n1 {
            let from = i * n2;
            if !self.decode_row(&mut grid[from..from + n2], line, word, rest) {
                return false;
            }
        }
        true
    }
}

// Whether column j of the grid is a word.
fn column_lawful<C: Code>(
    code: &C,
    grid: &[u16],
    n2: usize,
    j: usize,
    line: &mut [u16],
    rest: &mut [u16],
) -> bool
    requires ready { Ready (C.Code.codebook code.now) (length line.old) (length rest.old) }
    requires fits { (length grid.now ≡ length line.old * n2) × (length grid.now ≤ 4096) }
    requires symbols { Symbols (C.Code.codebook code.now).q grid.now }
    requires within { j < n2 }
    ensures { Says result ((C.Code.codebook code.now).Word (column (length line.old) n2 grid.now j)) }
{
    take_column(grid, n2, j, line);
    line_lawful(code, line, rest)
}

// Whether each column of the grid is a word.
pub(crate) fn columns_lawful<C: Code>(code: &C, grid: &[u16], n2: usize, lines: &mut [u16]) -> bool
    requires ready { Roomy (C.Code.codebook code.now) (length lines.old) }
    requires fits { (length grid.now ≡ (C.Code.codebook code.now).n * n2) × (length grid.now ≤ 4096) }
    requires symbols { Symbols (C.Code.codebook code.now).q grid.now }
    ensures { Says result ((j : ℕ) → j < n2 → (C.Code.codebook code.now).Word (column (C.Code.codebook code.now).n n2 grid.now j)) }
{
    let (line, rest) = lines.split_at_mut(length_of(code));
    for j in 0..n2 {
        if !column_lawful(code, grid, n2, j, line, rest) {
            return false;
        }
    }
    true
}

impl<A: Code, B: Code<Symbols = A::Symbols>> Product<A, B> {
    // Reads the columns and then the rows: leaves the one grid that can be within reach, or says that none is.
    fn decode(
        &self,
        received: &[u16],
        d1: usize,
        grid: &mut [u16],
        weights: &mut [u16],
        lines: &mut [u16],
    ) -> bool
        requires distance { (d1 ≡ (A.Code.codebook self.now.columns).d) × (d1 ≤ 4096) }
        requires columns_ready { Roomy (A.Code.codebook self.now.columns) (length lines.old) }
        requires rows_ready { Roomy (B.Code.codebook self.now.rows) (length lines.old) }
        requires fits { (length received.now ≡ (⟦<Product<A, B> as Code>⟧.codebook self.now).n) × (length grid.old ≡ length received.now) × (length grid.old ≤ 4096) × (length weights.old ≡ (B.Code.codebook self.now.rows).n) }
        requires taken { Taken (⟦<Product<A, B> as Code>⟧.codebook self.now).q received.now }
        ensures { Candidate (⟦<Product<A, B> as Code>⟧.codebook self.now) received.now grid.new result }
    {
        let n1 = length_of(&self.columns);
        let n2 = length_of(&self.rows);
        correct_columns(&self.columns, received, grid, weights, lines);
        let weights = Weights {
            each: weights,
            most: d1,
        };
        let decoder = RowDecoder {
            code: &self.rows,
            weights,
        };
        decoder.decode_rows(grid, n1, lines) && columns_lawful(&self.columns, grid, n2, lines)
    }

    // Cuts the working cells, decodes, and takes the grid where it costs less than the distance.
    fn solve(
        &self,
        received: &[u16],
        answer: &mut [u16],
        work: &mut [u16],
    ) -> Result<Counts, Refusal>
        requires ready { Ready (⟦<Product<A, B> as Code>⟧.codebook self.now) (length received.now) (length work.old) }
        requires tray { length answer.old ≡ length received.now }
        requires taken { Taken (⟦<Product<A, B> as Code>⟧.codebook self.now).q received.now }
        ensures { found (⟦<Product<A, B> as Code>⟧.codebook self.now) received.now answer.old answer.new result }
    {
        let (grid, tail) = work.split_at_mut(received.len());
        let (weights, lines) = tail.split_at_mut(length_of(&self.rows));
        let d1 = distance_of(&self.columns);
        if !self.decode(received, d1, grid, weights, lines) {
            return Err(Reason::Lost.at(0));
        }
        let counts = count(received, grid)?;
        let d2 = distance_of(&self.rows);
        if counts.cost() >= d1 * d2 {
            return Err(Reason::Lost.at(0));
        }
        answer.copy_from_slice(grid);
        Ok(counts)
    }

    // Checks the cells, and corrects.
    pub(crate) fn attempt(
        &self,
        received: &[u16],
        answer: &mut [u16],
        work: &mut [u16],
    ) -> Result<Counts, Refusal>
        requires ready { Ready (⟦<Product<A, B> as Code>⟧.codebook self.now) (length received.now) (length work.old) }
        requires tray { length answer.old ≡ length received.now }
        ensures { reads (clean (good Received (⟦<Product<A, B> as Code>⟧.codebook self.now).q) received.now) (⟦<Product<A, B> as Code>⟧.codebook self.now) received.now answer.old answer.new result }
    {
        check_cells(received, A::Symbols::Q, Content::Received)?;
        self.solve(received, answer, work)
    }
}
