// Contents that no moves could have made: each stands for a full cost, which takes no more.
use house::largest::{Largest, LargestCost};
use house::named::SUM_THEN_LARGEST;
use house::table::CountTable;
use house::table::cost::TableCost;
use house::weighed::{SQUARES, SUM, SumCost};
use measures::costs::Costs;
use measures::measure::Measure;
use measures::pair::PairCost;

// A sum, its moves, and how many moves it stands for by the sum and by the squares.
struct Sums(u32, u16, u16, u16);

const SUMS: [Sums; 11] = [
    Sums(0, 0, 0, 0),
    Sums(1, 0, 378, 378),
    Sums(4294967295, 0, 378, 378),
    Sums(24, 1, 1, 1),
    Sums(25, 1, 378, 1),
    Sums(576, 1, 378, 1),
    Sums(577, 1, 378, 378),
    Sums(9048, 377, 377, 377),
    Sums(9049, 377, 378, 377),
    Sums(0, 378, 378, 378),
    Sums(0, 65535, 378, 378),
];

#[test]
fn a_sum_is_counted_where_moves_could_have_made_it(rt: HostRuntime) {
    for Sums(sum, moves, plain, squared) in SUMS.iter() {
        let cost = SumCost {
            sum: *sum,
            moves: *moves,
        };
        assert_eq!(rt; SUM.count(&cost), *plain);
        assert_eq!(rt; SQUARES.count(&cost), *squared);
        let mut after = cost;
        SUM.add(&mut after, 3);
        let expected = if *plain < 378 {
            SumCost {
                sum: *sum + 3,
                moves: *moves + 1,
            }
        } else {
            cost
        };
        assert_eq!(rt; after, expected);
    }
}

// The size of the largest move, its moves, and how many moves it stands for.
struct Sizes(u8, u16, u16);

const SIZES: [Sizes; 7] = [
    Sizes(0, 0, 0),
    Sizes(1, 0, 378),
    Sizes(24, 1, 1),
    Sizes(25, 1, 378),
    Sizes(255, 377, 378),
    Sizes(24, 377, 377),
    Sizes(0, 65535, 378),
];

#[test]
fn a_largest_move_is_counted_where_moves_could_have_made_it(rt: HostRuntime) {
    for Sizes(size, moves, count) in SIZES.iter() {
        let cost = LargestCost {
            size: *size,
            moves: *moves,
        };
        assert_eq!(rt; Largest.count(&cost), *count);
        let mut after = cost;
        Largest.add(&mut after, 24);
        let expected = if *count < 378 {
            LargestCost {
                size: 24,
                moves: *moves + 1,
            }
        } else {
            cost
        };
        assert_eq!(rt; after, expected);
    }
}

#[test]
fn a_table_is_counted_where_moves_could_have_made_it(rt: HostRuntime) {
    let mut counts = [0; 24];
    counts[23] = 3;
    assert_eq!(rt; CountTable.count(&TableCost { counts, moves: 3 }), 3);
    assert_eq!(rt; CountTable.count(&TableCost { counts, moves: 2 }), 378);
    assert_eq!(rt; CountTable.count(&TableCost { counts, moves: 379 }), 378);
    let full = TableCost {
        counts: [65535; 24],
        moves: 65535,
    };
    assert_eq!(rt; CountTable.count(&full), 378);
    let mut after = full;
    CountTable.add(&mut after, 24);
    assert_eq!(rt; after, full);
}

#[test]
fn a_pair_holds_as_many_moves_as_its_fuller_half(rt: HostRuntime) {
    let first = SumCost { sum: 5, moves: 5 };
    let second = LargestCost {
        size: 5,
        moves: 378,
    };
    let cost = PairCost { first, second };
    assert_eq!(rt; SUM_THEN_LARGEST.count(&cost), 378);
    let mut after = cost;
    SUM_THEN_LARGEST.add(&mut after, 1);
    assert_eq!(rt; after, cost);
}
