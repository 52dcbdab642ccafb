// What the words of documents 01 and 02 mean, over the whole numbers: no grid, no machine, no function.
//
// specs/ holds the definitions that a reader must believe:
//   Points       points, shapes, how a list of numbers is read as points, moving by a vector
//   Signs        the turn, the side, the bracket that names both, the sign of a number
//   Sharing      a point of a shape by whole weights, and having a point in common
//   Flat         flat triangles and segments, and the test that tells them
//   Verdicts     what a verdict says
//   Lists        words about lists of anything
//   Inside       a point inside a shell of triangles
//   Shells       the corners of a shell, and closed shells
//   Bench        the table of proved bench rows
// and words that no public promise cites, by which code decides:
//   Normals      the normal of a plane
//   PlaneTest    the tests in the plane as decisions by signs
//   SpaceTest    the tests in space as decisions by signs, of triangles that are not flat
//   WireTest     the same of two segments, and of shapes that may be flat
//   InsideTest   inside, decided by signs
//   TriangleLists   the triangles at the front of a list of numbers
//
// proofs/ holds the laws, each proved once over the number of coordinates and, where it makes sense, of corners:
//   Weights      the weighted sum of a function over the corners is linear and monotone
//   Trading      trading the shapes, reordering corners, a part of the corners, moving both by a vector
//   Apart        apart by a functional: what proves every "no"
//   Meeting      meeting by weights: document 01's definition word for word
//   Mixing       a shape whose corners are points of another is part of it; a segment cut in two
//   Seeking      some number below n has a property, or all have another
//   Shadows      shapes as they are seen in some of their coordinates
//   Dependence   meeting by a dependence of n + 2 points in n coordinates: what proves every "yes"
//   Witnesses    its three instances: a point in a triangle, two segments that cross, a segment through a triangle
//   SignLaws     swapping, cycling, equal points, moving, for plane and space at once
//   TurnSize     how large a turn can be
//   VerdictLaws  a verdict by signs; two verdicts on one claim are the same
//   FlatLaws     flat triangles told by turns, and by the test
//   Lines        flat in document 01's words: one corner between the others; in any order
//   Thin         what a flat shape is: the union of its edges, or a point
//   Edges        on which side of a line a point lies; apart by a line
//   TriangleLeaves, SegmentLeaves   each answer of the tests in the plane with its certificate
//   PlaneTest    each test in the plane says yes exactly when the two shapes have a point in common
//   Standings    each of the 27 sign patterns names a standing that fits its signs
//   Planes       planes of space, and what lies strictly on one side of one
//   Segments     two segments, over any number of coordinates: what keeps them apart
//   Dropping     shapes in one plane, with a coordinate dropped
//   SpaceLeaves  each answer of the tests in space with its certificate
//   SpaceTest    each test in space says yes exactly when the two shapes have a point in common, where no triangle is flat
//   WireTest     the same of two segments, and of all shapes, flat or not
//   ListLaws     laws of the words about lists
//   Eventually   the sign of a polynomial for every n large enough
//   AheadAt, AheadTest, InsideTest   ahead of a point and inside, by signs
//   TriangleLists   the triangles at the front of a list of numbers
//   Closed       closed shells in document 02's words, and that the test tells them
//   ShellRows    rows of the definitions of shells and of inside
//   ShellMoves   a shell and a point moved by one vector
//   Symbols      points as symbols for the ring solver
//   Bench        every row of the table holds
#![tactic(auto)]
