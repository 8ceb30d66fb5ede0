//! The blocks of well-known methods, and of three at the edge of what a fraction holds, as the lines
//! that a `Builder` reads.

/// A tableau block: its numbers and its row lines.
#[derive(Clone, Copy)]
pub struct Block {
    pub stages: usize,
    pub colours: usize,
    pub lines: &'static [&'static str],
}

/// Euler's method.
pub const EULER: Block = Block {
    stages: 1,
    colours: 1,
    lines: &["a 0", "b 1"],
};

/// The implicit method of Euler.
pub const IMPLICIT_EULER: Block = Block {
    stages: 1,
    colours: 1,
    lines: &["a 1", "b 1"],
};

/// The implicit midpoint rule.
pub const MIDPOINT: Block = Block {
    stages: 1,
    colours: 1,
    lines: &["a 1/2", "b 1"],
};

/// The method of Kutta of order 4.
pub const RK4: Block = Block {
    stages: 4,
    colours: 1,
    lines: &[
        "a 0 0 0 0",
        "a 1/2 0 0 0",
        "a 0 1/2 0 0",
        "a 0 0 1 0",
        "b 1/6 1/3 1/3 1/6",
    ],
};

/// The method of order 5 of the pair of Dormand and Prince.
pub const DORMAND_PRINCE: Block = Block {
    stages: 7,
    colours: 1,
    lines: &[
        "a 0 0 0 0 0 0 0",
        "a 1/5 0 0 0 0 0 0",
        "a 3/40 9/40 0 0 0 0 0",
        "a 44/45 -56/15 32/9 0 0 0 0",
        "a 19372/6561 -25360/2187 64448/6561 -212/729 0 0 0",
        "a 9017/3168 -355/33 46732/5247 49/176 -5103/18656 0 0",
        "a 35/384 0 500/1113 125/192 -2187/6784 11/84 0",
        "b 35/384 0 500/1113 125/192 -2187/6784 11/84 0",
    ],
};

/// Euler's two methods as one of two colours: colour 0 is treated implicitly and colour 1 explicitly.
pub const IMEX: Block = Block {
    stages: 2,
    colours: 2,
    lines: &["a 0 0", "a 0 1", "b 0 1", "a 0 0", "a 1 0", "b 1 0"],
};

/// One stage with the largest weight.
pub const LARGEST_WEIGHT: Block = Block {
    stages: 1,
    colours: 1,
    lines: &["a 2", "b 170141183460469231731687303715884105727"],
};

/// Three weights whose sum fits, though the sum of the first two does not.
pub const LARGEST_TWICE: Block = Block {
    stages: 3,
    colours: 1,
    lines: &[
        "a 0 0 0",
        "a 0 0 0",
        "a 0 0 0",
        "b 170141183460469231731687303715884105727 170141183460469231731687303715884105727 -170141183460469231731687303715884105727",
    ],
};

/// Two weights whose reduced sum fits, though the numbers on the way to it do not.
pub const HALF_AND_THIRD: Block = Block {
    stages: 2,
    colours: 1,
    lines: &[
        "a 0 0",
        "a 0 0",
        "b 170141183460469231731687303715884105727/2 -170141183460469231731687303715884105727/3",
    ],
};
