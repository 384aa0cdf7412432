// The cheapest value of an option.
ghost use Rattle.std.specs.Prelude.{◌≡◌, Some, MatchOption};
ghost use Rattle.value_set.specs.Members.{member, NoMember};
ghost use Rattle.measure.specs.Tariffs.{price_of, asked_price};
ghost use Rattle.rule_book.specs.Books.{in_set};
ghost use Rattle.book_report.specs.Cheapest.{CheapestOf, NoValue, cheaper};

use measure::Tariff;
use rule_book::Book;
use value_set::ValueSet;

/// A value and what it costs.
#[derive(Clone, Copy, PartialEq, Eq, Debug)]
pub struct Cheapest {
    pub value: u8,
    pub price: u64,
}

/// The value of an option that costs least, the least value of those that cost the same. An option without values has
/// none.
pub fn cheapest_value<B: Book>(book: &B, tariff: &Tariff, option: usize) -> Option<Cheapest>
    ensures { MatchOption result (NoValue (in_set (B.Book.meaning book.now) option))
        (CheapestOf (in_set (B.Book.meaning book.now) option)
        (asked_price (price_of tariff.now.prices) option)) }
{
    cheapest_of(book.values(option), tariff, option)
}

fn cheapest_of(values: ValueSet, tariff: &Tariff, option: usize) -> Option<Cheapest>
    ensures { MatchOption result (NoMember values) (CheapestOf (member values)
        (asked_price (price_of tariff.now.prices) option)) }
{
    values
        .values()
        .map(|value| Cheapest {
            value,
            price: tariff.price(option, value),
        })
        .reduce(cheaper_of)
}

// The first unless the second costs less: which of two at one price stays is said here, and left to no library method.
fn cheaper_of(first: Cheapest, second: Cheapest) -> Cheapest
    ensures { result ≡ cheaper (Some first) second }
{
    if first.price <= second.price {
        first
    } else {
        second
    }
}
