// The rules 11 to 17, 20 and 21 over two files that read without fault: the test at one place, the search for the first broken place, the
// rules in order.
#![tactic(auto)]

ghost use Rattle.std.specs.Prelude.{◌≡◌, [], ◌∷◌, ◌<◌, pos, length, get_or};
ghost use Rattle.stages.specs.Stage.{first_fault, spot};
ghost use Rattle.market.specs.Rules.{equal};
ghost use Rattle.market.specs.declared.Rule.TheVariants.{Price, Capacity, Quantity, Ratio, Whole, Balance, Step, Line, Block};
ghost use Rattle.rules.specs.Judge.{rows_of, columns_of, test, stage, stages, Gathered};

use book::Book;
use day::Counts;
use market::Rule;
use stages::{Place, Refusal};

// Two files that read without fault, with the tables of their net positions and flows.
#[derive(Clone, Copy)]
pub struct Tables<'a> {
    pub book: Book<'a>,
    pub nets: &'a [i64],
    pub flows: &'a [i64],
    pub ghost gathered: { Gathered book.framed.counts book.framed.day.now book.framed.clearing.now nets.now flows.now },
}

// ---- the test at one place

fn price_holds(book: Book<'_>, zone: usize, period: usize) -> bool
    requires { (zone < book.framed.counts.zones) × (period < book.framed.counts.periods) }
    ensures { let f = book.entry.framed in result ≡ test f.counts f.day.now f.clearing.now Price zone period }
{
    let files = book.framed;
    limits::between(
        files.price(zone, period),
        files.floor(period),
        files.ceiling(period),
    )
}

fn capacity_holds(book: Book<'_>, line: usize, period: usize) -> bool
    requires { (line < book.framed.counts.lines) × (period < book.framed.counts.periods) }
    ensures { let f = book.entry.framed in result ≡ test f.counts f.day.now f.clearing.now Capacity line period }
{
    let files = book.framed;
    limits::between(
        files.flow(line, period),
        files.least_flow(line, period),
        files.forward(line, period),
    )
}

fn quantity_holds(book: Book<'_>, row: usize) -> bool
    requires { row < book.framed.counts.steps }
    ensures { let f = book.entry.framed in result ≡ test f.counts f.day.now f.clearing.now Quantity row 0 }
{
    let step = book.framed.step(row);
    book.framed.volume(row) <= step.quantity
}

fn ratio_holds(book: Book<'_>, row: usize) -> bool
    requires { row < book.framed.counts.blocks }
    ensures { let f = book.entry.framed in result ≡ test f.counts f.day.now f.clearing.now Ratio row 0 }
{
    let block = book.framed.block(row);
    market::ratio_ok(block.least, book.framed.ratio(row))
}

fn whole_holds(book: Book<'_>, row: usize, period: usize) -> bool
    requires { (row < book.framed.counts.blocks) × (period < book.framed.counts.periods) }
    ensures { let f = book.entry.framed in result ≡ test f.counts f.day.now f.clearing.now Whole row period }
{
    market::whole_ok(book.framed.ratio(row), book.framed.quantity(row, period))
}

fn step_holds(book: Book<'_>, row: usize) -> bool
    requires { row < book.framed.counts.steps }
    ensures { let f = book.entry.framed in result ≡ test f.counts f.day.now f.clearing.now Step row 0 }
{
    let step = book.framed.step(row);
    let side = step.side;
    market::step_ok(
        side,
        step.limit,
        step.quantity,
        book.framed.price(step.zone, step.period),
        book.framed.volume(row),
    )
}

fn line_holds(book: Book<'_>, line: usize, period: usize) -> bool
    requires { (line < book.framed.counts.lines) × (period < book.framed.counts.periods) }
    ensures { let f = book.entry.framed in result ≡ test f.counts f.day.now f.clearing.now Line line period }
{
    let files = book.framed;
    let ends = files.line(line);
    market::line_ok(
        files.forward(line, period),
        files.least_flow(line, period),
        files.price(ends.from, period),
        files.price(ends.to, period),
        files.flow(line, period),
    )
}

fn block_holds(book: Book<'_>, row: usize) -> bool
    requires { row < book.framed.counts.blocks }
    ensures { let f = book.entry.framed in result ≡ test f.counts f.day.now f.clearing.now Block row 0 }
{
    market::block_ok(book.framed.ratio(row), totals::whole_surplus(book, row))
}

fn same_at(nets: &[i64], flows: &[i64], cell: usize) -> bool
    requires { (cell < length nets.now) × (cell < length flows.now) }
    ensures { result ≡ equal (get_or nets.now cell (pos 0)) (get_or flows.now cell (pos 0)) }
{
    market::equal(nets[cell], flows[cell])
}

// ---- a rule's places

fn rows_of(rule: Rule, counts: Counts) -> usize
    ensures { result ≡ rows_of counts rule }
{
    match rule {
        Rule::Price => counts.zones,
        Rule::Capacity => counts.lines,
        Rule::Quantity => counts.steps,
        Rule::Ratio => counts.blocks,
        Rule::Whole => counts.blocks,
        Rule::Balance => counts.zones,
        Rule::Step => counts.steps,
        Rule::Line => counts.lines,
        Rule::Block => counts.blocks,
    }
}

fn columns_of(rule: Rule, counts: Counts) -> usize
    ensures { result ≡ columns_of counts rule }
{
    match rule {
        Rule::Price => counts.periods,
        Rule::Capacity => counts.periods,
        Rule::Quantity => 1,
        Rule::Ratio => 1,
        Rule::Whole => counts.periods,
        Rule::Balance => counts.periods,
        Rule::Step => 1,
        Rule::Line => counts.periods,
        Rule::Block => 1,
    }
}

// ---- the search

impl Tables<'_> {
    fn balance_holds(self, zone: usize, period: usize) -> bool
        requires { (zone < self.book.framed.counts.zones) × (period < self.book.framed.counts.periods) }
        ensures { let f = self.entry.book.framed in result ≡ test f.counts f.day.now f.clearing.now Balance zone period }
    {
        let cell = cells::cell(self.book.framed.counts.periods, zone, period);
        same_at(self.nets, self.flows, cell)
    }

    // A match, and no table of functions: the tests take one number or two, and each has a contract of its own.
    fn holds_at(self, rule: Rule, row: usize, column: usize) -> bool
        requires { let f = self.book.framed in (row < rows_of f.counts rule) × (column < columns_of f.counts rule) }
        ensures { let f = self.entry.book.framed in result ≡ test f.counts f.day.now f.clearing.now rule row column }
    {
        match rule {
            Rule::Price => price_holds(self.book, row, column),
            Rule::Capacity => capacity_holds(self.book, row, column),
            Rule::Quantity => quantity_holds(self.book, row),
            Rule::Ratio => ratio_holds(self.book, row),
            Rule::Whole => whole_holds(self.book, row, column),
            Rule::Balance => self.balance_holds(row, column),
            Rule::Step => step_holds(self.book, row),
            Rule::Line => line_holds(self.book, row, column),
            Rule::Block => block_holds(self.book, row),
        }
    }

    // Row by row, and in a row column by column, to the first place at which the rule is broken.
    fn first_broken(self, rule: Rule) -> Option<(usize, usize)>
        ensures { let f = self.entry.book.framed in result ≡ spot (stage f.counts f.day.now f.clearing.now rule) }
    {
        let rows = rows_of(rule, self.book.framed.counts);
        let columns = columns_of(rule, self.book.framed.counts);
        let mut broken = None;
        'scan: for row in 0..rows {
            for column in 0..columns {
                if !self.holds_at(rule, row, column) {
                    broken = Some((row, column));
                    break 'scan;
                }
            }
        }
        broken
    }

    fn judge(self, rule: Rule) -> Result<(), Refusal>
        ensures { let f = self.entry.book.framed in result ≡ first_fault (stage f.counts f.day.now f.clearing.now rule ∷ []) }
    {
        match self.first_broken(rule) {
            Some((row, column)) => Err(Refusal::new(rule.into(), Place::new(row, column))),
            None => Ok(()),
        }
    }

    // The rules in order: 20 and 21 come after 13.
    pub fn first_fault(self) -> Result<(), Refusal>
        ensures { let f = self.entry.book.framed in result ≡ first_fault (stages f.counts f.day.now f.clearing.now) }
    {
        self.judge(Rule::Price)?;
        self.judge(Rule::Capacity)?;
        self.judge(Rule::Quantity)?;
        self.judge(Rule::Ratio)?;
        self.judge(Rule::Whole)?;
        self.judge(Rule::Balance)?;
        self.judge(Rule::Step)?;
        self.judge(Rule::Line)?;
        self.judge(Rule::Block)
    }
}
