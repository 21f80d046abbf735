use lz_base::IntType;

/// How a statement leads on: to what follows it, out of its loop, to the loop's next turn, or out of its function with
/// a value of this kind (C99 6.8.6).
#[derive(Clone, Copy)]
pub enum Flow {
    Normal,
    Breaks,
    Continues,
    Returns { kind: IntType, value: u32 },
}

/// Where one statement stands.
#[derive(Clone, Copy)]
pub enum Station {
    /// Before its first action.
    Start,
    /// It led on so.
    Led { flow: Flow },
    /// Behind the value of an expression statement.
    Evaluated,
    /// Before part `at` of a block.
    Listing { at: usize },
    /// Behind part `at` of a block.
    Listed { at: usize },
    /// Before declarator `at`.
    Declaring { at: usize },
    /// Before this element of the object of declarator `at`.
    Filling { at: usize, element: u32 },
    /// Behind the input of this element.
    Arbitrary { at: usize, element: u32 },
    /// Behind the value of this element.
    Filled { at: usize, element: u32 },
    /// Behind the one value of the object of declarator `at`.
    Initialized { at: usize },
    /// Behind the test of `if`.
    Tested,
    /// Behind the branch of a test that holds.
    Taken,
    /// Behind the branch of a test that does not.
    Other,
    /// Behind the first part of `for`.
    Opened,
    /// Before a turn of `while` or `for`, of which so many are left.
    Turning { left: u32 },
    /// Behind the test of a loop.
    Turned { left: u32 },
    /// Behind the body of a loop.
    Bodied { left: u32 },
    /// Behind the step of `for`.
    Changed { left: u32 },
    /// Before a turn of `do`.
    Doing { left: u32 },
    /// Behind the value of `return`.
    Returned,
    /// Behind the statement of a label.
    Labelled,
}

/// What one statement does at a station.
#[derive(Clone, Copy)]
pub enum StationMove {
    /// It enters an expression, behind which it is at this station, with the expression's value.
    EntersValue { station: Station },
    /// It enters a statement, behind which it is at this station, as that statement led on.
    EntersPart { station: Station },
    /// It comes to this station by no action.
    MovesOn { station: Station },
    /// It led on so.
    Leads { flow: Flow },
    /// An input for an element, behind which it is at this station with the input's value.
    Asks { kind: IntType, station: Station },
    /// Nothing more.
    Stops,
}
