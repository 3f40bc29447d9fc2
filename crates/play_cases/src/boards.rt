// 100221000000201000002010, whose digits no number holds.
pub fn three_rings() -> [u8; 24] {
    [
        0, 1, 0, 2, 0, 0, 0, 0, 0, 1, 0, 2, 0, 0, 0, 0, 0, 0, 1, 2, 2, 0, 0, 1,
    ]
}
