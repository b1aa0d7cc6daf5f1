// Listings to resume from, and what they go on to. A function gives each of them, so that what is proved of a test doesn't read its bytes.

const RANK_FOUR_TO_NINE: &[u8] = b"macek listing 1\n\
version 1\n\
field 2\n\
rank 4\n\
size 9\n\
print forms\n\
level 4 classes 1 listed 1 tried 0\n\
1000 0100 0010 0001\n\
level 5 classes 3 listed 3 tried 11\n\
1000 0100 0010 0001 0011\n\
1000 0100 0010 0001 0111\n\
1000 0100 0010 0001 1111\n\
level 6 classes 4 listed 4 tried 30\n\
1000 0100 0010 0001 0011 0101\n\
1000 0100 0010 0001 0011 1100\n\
1000 0100 0010 0001 0011 1101\n\
1000 0100 0010 0001 0111 1011\n\
level 7 classes 5 listed 5 tried 36\n\
1000 0100 0010 0001 0011 0101 0110\n\
1000 0100 0010 0001 0011 0101 1001\n\
1000 0100 0010 0001 0011 0101 1010\n\
1000 0100 0010 0001 0011 0101 1110\n\
1000 0100 0010 0001 0111 1011 1101\n\
level 8 classes 6 listed 6 tried 40\n\
1000 0100 0010 0001 0011 0101 0110 0111\n\
1000 0100 0010 0001 0011 0101 0110 1001\n\
1000 0100 0010 0001 0011 0101 0110 1111\n\
1000 0100 0010 0001 0011 0101 1001 1110\n\
1000 0100 0010 0001 0011 0101 1010 1100\n\
1000 0100 0010 0001 0111 1011 1101 1110\n\
level 9 classes 5 listed 5 tried 42\n\
1000 0100 0010 0001 0011 0101 0110 0111 1001\n\
1000 0100 0010 0001 0011 0101 0110 1001 1010\n\
1000 0100 0010 0001 0011 0101 0110 1001 1110\n\
1000 0100 0010 0001 0011 0101 1001 1110 1111\n\
1000 0100 0010 0001 0011 0101 1010 1100 1111\n\
end\n";

/// The binary forms of rank 3, of at most five columns.
pub fn binary_to_five() -> &'static [u8] {
    b"macek listing 1\n\
version 1\n\
field 2\n\
rank 3\n\
size 5\n\
print forms\n\
level 3 classes 1 listed 1 tried 0\n\
100 010 001\n\
level 4 classes 2 listed 2 tried 4\n\
100 010 001 011\n\
100 010 001 111\n\
level 5 classes 1 listed 1 tried 6\n\
100 010 001 011 101\n\
end\n"
}

/// The numbers of the binary forms of rank 4.
pub fn binary_counts() -> &'static [u8] {
    b"macek listing 1\n\
version 1\n\
field 2\n\
rank 4\n\
size 15\n\
print counts\n\
level 4 classes 1 listed 1 tried 0\n\
level 5 classes 3 listed 3 tried 11\n\
level 6 classes 4 listed 4 tried 30\n\
level 7 classes 5 listed 5 tried 36\n\
level 8 classes 6 listed 6 tried 40\n\
level 9 classes 5 listed 5 tried 42\n\
level 10 classes 4 listed 4 tried 30\n\
level 11 classes 3 listed 3 tried 20\n\
level 12 classes 2 listed 2 tried 12\n\
level 13 classes 1 listed 1 tried 6\n\
level 14 classes 1 listed 1 tried 2\n\
level 15 classes 1 listed 1 tried 1\n\
end\n"
}

/// The binary forms of rank 4, of at most eight columns.
pub fn rank_four_to_eight() -> &'static [u8] {
    b"macek listing 1\n\
version 1\n\
field 2\n\
rank 4\n\
size 8\n\
print forms\n\
level 4 classes 1 listed 1 tried 0\n\
1000 0100 0010 0001\n\
level 5 classes 3 listed 3 tried 11\n\
1000 0100 0010 0001 0011\n\
1000 0100 0010 0001 0111\n\
1000 0100 0010 0001 1111\n\
level 6 classes 4 listed 4 tried 30\n\
1000 0100 0010 0001 0011 0101\n\
1000 0100 0010 0001 0011 1100\n\
1000 0100 0010 0001 0011 1101\n\
1000 0100 0010 0001 0111 1011\n\
level 7 classes 5 listed 5 tried 36\n\
1000 0100 0010 0001 0011 0101 0110\n\
1000 0100 0010 0001 0011 0101 1001\n\
1000 0100 0010 0001 0011 0101 1010\n\
1000 0100 0010 0001 0011 0101 1110\n\
1000 0100 0010 0001 0111 1011 1101\n\
level 8 classes 6 listed 6 tried 40\n\
1000 0100 0010 0001 0011 0101 0110 0111\n\
1000 0100 0010 0001 0011 0101 0110 1001\n\
1000 0100 0010 0001 0011 0101 0110 1111\n\
1000 0100 0010 0001 0011 0101 1001 1110\n\
1000 0100 0010 0001 0011 0101 1010 1100\n\
1000 0100 0010 0001 0111 1011 1101 1110\n\
end\n"
}

/// The binary forms of rank 4, of at most nine columns.
pub fn rank_four_to_nine() -> &'static [u8] {
    RANK_FOUR_TO_NINE
}

/// The binary forms of rank 4, of at most eight columns, with no minor F7 and no minor F7*.
pub fn rank_four_without_fano() -> &'static [u8] {
    b"macek listing 1\n\
version 1\n\
field 2\n\
rank 4\n\
size 8\n\
forbid F7\n\
forbid F7*\n\
print forms\n\
level 4 classes 1 listed 1 tried 0\n\
1000 0100 0010 0001\n\
level 5 classes 3 listed 3 tried 11\n\
1000 0100 0010 0001 0011\n\
1000 0100 0010 0001 0111\n\
1000 0100 0010 0001 1111\n\
level 6 classes 4 listed 4 tried 30\n\
1000 0100 0010 0001 0011 0101\n\
1000 0100 0010 0001 0011 1100\n\
1000 0100 0010 0001 0011 1101\n\
1000 0100 0010 0001 0111 1011\n\
level 7 classes 4 listed 4 tried 34\n\
1000 0100 0010 0001 0011 0101 0110\n\
1000 0100 0010 0001 0011 0101 1001\n\
1000 0100 0010 0001 0011 0101 1010\n\
1000 0100 0010 0001 0011 0101 1110\n\
level 8 classes 2 listed 2 tried 25\n\
1000 0100 0010 0001 0011 0101 0110 1001\n\
1000 0100 0010 0001 0011 0101 1010 1100\n\
end\n"
}
